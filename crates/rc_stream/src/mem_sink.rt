//! A sink in memory, which fails where it is told to and where it is full.
ghost use Rattle.std.specs.Prelude.{◌≡◌, ◌≤◌, ◌<◌, ◌+◌, ◌-◌, ◌^◌, ◌↔◌, ◌⊎◌, ◌||◌, nat_lt, false, true, min, [], length, Some, IfOk, OnOk, OnErr, IsErr, Contains, ◌++◌, vec_len, vec_capacity};
ghost use Rattle.std.specs.Io.KnownBytes.{WriteAppends, Keeps};
ghost use Rattle.rc_stream.specs.Causes.{HasCause, TakesSome};

use crate::calls::{is_listed, next_call};
use crate::streams::{Failed, Sink};
use rc_base::NoMemory;
use std::alloc::Global;
use std::marker::Model;

/// Takes bytes into memory, at most `piece` in a call and `room` in all. The calls of `write` and `flush` whose
/// numbers, counted together from 1, are listed fail, and so does a write of some bytes to a full sink; no other. It holds
/// back what was taken since the last flush that answered `Ok`.
#[derive(Drop)]
pub struct MemSink {
    taken: Vec<u8>,
    room: usize,
    piece: usize,
    failing: Vec<u32>,
    held: bool,
    calls: u64,
    faults: u64,
}

impl Model for MemSink {
    ghost use Rattle.std.specs.Prelude.{◌≤◌, ◌<◌, vec_len, vec_capacity};
    ghost use Rattle.rc_stream.specs.Memory.{Store};

    ghost Value = { Store };

    ghost view = { λ s. record { taken = s.taken.items; room = s.room; piece = s.piece; failing = s.failing.items; held = s.held; calls = s.calls; faults = s.faults } };

    ghost invariant = { λ s. (0 < s.piece) × (s.room ≤ vec_capacity s.taken) };
}

impl MemSink {
    /// An empty sink with room for `room` bytes, which takes at most `piece` of them in a call and fails at the calls
    /// that are listed.
    pub fn create(
        alloc: Global,
        room: usize,
        piece: usize,
        failing: &[u32],
    ) -> Result<MemSink, NoMemory>
        requires { 0 < piece }
        ensures { IfOk result (λ s. s ≡ record { taken = []; room = room; piece = piece; failing = failing.now; held = false; calls = 0; faults = 0 }) }
    {
        let taken = Vec::with_capacity(alloc, room)?;
        let failing = Vec::from_slice(alloc, failing)?;
        Ok(MemSink {
            taken,
            room,
            piece,
            failing,
            held: false,
            calls: 0,
            faults: 0,
        })
    }

    /// The bytes that were taken.
    pub fn taken(&self) -> &[u8]
        ensures { result.now ≡ self.now.taken }
    {
        self.taken.as_slice()
    }

    /// Whether bytes were taken since the last flush that answered `Ok`.
    pub fn is_held(&self) -> bool
        ensures { result ≡ self.now.held }
    {
        self.held
    }
}

impl Sink for MemSink {
    ghost taken = { λ s. Some s.taken };

    ghost held = { λ s. s.held };

    ghost faults = { λ s. s.faults };

    fn write(&mut self, piece: &[u8]) -> Result<usize, Failed>
        requires { self.old.faults < 2 ^ 64 - 1 }
        ensures bound { TakesSome result piece.now }
        ensures bytes { WriteAppends (Some self.old.taken) (Some self.new.taken) result piece.now }
        ensures holds { IfOk result (λ n. 0 < n → self.new.held ≡ true) }
        ensures cause { HasCause self.old.faults self.new.faults result }

        ensures one_fault { OnErr result (self.new.faults ≡ self.old.faults + 1) }
        ensures calls { self.new.calls ≡ min (self.old.calls + 1) (2 ^ 64 - 1) }
        ensures failing { IsErr result ↔ (Contains self.old.failing self.new.calls ⊎ (0 < length piece.now) × (self.old.room ≤ length self.old.taken)) }
        ensures count { IfOk result (λ n. n ≡ min (min (length piece.now) self.old.piece) (self.old.room - length self.old.taken)) }
        ensures held { IfOk result (λ n. self.new.held ≡ (self.old.held || nat_lt 0 n)) }
        ensures still_held { OnErr result (self.new.held ≡ self.old.held) }
        ensures kept { (self.new.room ≡ self.old.room) × (self.new.piece ≡ self.old.piece) × (self.new.failing ≡ self.old.failing) }
    {
        self.calls = next_call(self.calls);
        let free = self.room.saturating_sub(self.taken.len());
        if is_listed(&self.failing, self.calls) || (free == 0 && !piece.is_empty()) {
            self.faults += 1;
            return Err(Failed);
        }
        let count = piece.len().min(self.piece).min(free);
        append(&mut self.taken, &piece[..count]);
        self.held = self.held || count > 0;
        Ok(count)
    }

    fn flush(&mut self) -> Result<(), Failed>
        requires { self.old.faults < 2 ^ 64 - 1 }
        ensures bytes { Keeps (Some self.old.taken) (Some self.new.taken) }
        ensures none_held { OnOk result (self.new.held ≡ false) }
        ensures cause { HasCause self.old.faults self.new.faults result }

        ensures still_held { OnErr result (self.new.held ≡ self.old.held) }
        ensures one_fault { OnErr result (self.new.faults ≡ self.old.faults + 1) }
        ensures calls { self.new.calls ≡ min (self.old.calls + 1) (2 ^ 64 - 1) }
        ensures failing { IsErr result ↔ Contains self.old.failing self.new.calls }
        ensures kept { (self.new.room ≡ self.old.room) × (self.new.piece ≡ self.old.piece) × (self.new.failing ≡ self.old.failing) }
    {
        self.calls = next_call(self.calls);
        if is_listed(&self.failing, self.calls) {
            self.faults += 1;
            return Err(Failed);
        }
        self.held = false;
        Ok(())
    }
}

// Adds bytes that have room.
fn append(to: &mut Vec<u8>, piece: &[u8])
    requires { vec_len to.old + length piece.now ≤ vec_capacity to.old }
    ensures items { to.new.items ≡ to.old.items ++ piece.now }
    ensures room { vec_capacity to.new ≡ vec_capacity to.old }
{
    for byte in piece {
        to.push_reserved(*byte);
    }
}
