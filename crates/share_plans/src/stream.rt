//! A stream whose text comes in pieces.
ghost use Rattle.std.specs.Prelude.{◌≡◌, ◌+◌, ◌≤◌, ◌<◌, ℕ, List, [], ◌∷◌, ◌++◌, length, IfOk, IfSome, MatchResult, Err, None, false};
ghost use Rattle.share_plans.specs.Filtering.{Filtering};
ghost use Rattle.share_plans.specs.Reading.{AreOf, HasRead, IsGood, ReadsOn};
ghost use Rattle.share_plans.specs.Streams.{stream_of};
ghost use Rattle.share_plans.specs.declared.division_limits.TheConstants.{MOST_USES};
ghost use Rattle.share_plans.specs.declared.stream_limits.TheConstants.{MOST_STREAM_BYTES};

use crate::filtered_played::FilteredPlayed;
use crate::played::Played;
use crate::step::{step_of, step_of_ended};
use rc_base::NoMemory;
use std::alloc::Global;
use std::marker::Model;
use way_curve::{LevelShapes, MOST_LINE_BYTES};

/// A line is none of a stream, or it is too long.
#[derive(Clone, Copy, Debug, PartialEq, Eq)]
pub struct BadStream {
    /// The number of the first such line, counted from 1.
    pub line: u64,
}

/// What was played of a stream whose text comes in pieces. Contracts see which text was read (`HasRead`).
#[derive(Drop)]
pub struct Stream {
    bytes: u64,
    ended: u64,
    rest: Vec<u8>,
    turn: Option<u8>,
    is_bad: bool,
    played: FilteredPlayed,
}

impl Model for Stream {
    ghost use Rattle.std.specs.Prelude.{vec_capacity};
    ghost use Rattle.share_plans.specs.Reading.{IsRoomy, StreamValue};

    ghost Value = { StreamValue };

    ghost view = { λ s. record { bytes = s.bytes; ended = s.ended; rest = s.rest.items; turn = s.turn; is_bad = s.is_bad; played = s.played } };

    ghost invariant = { λ s. IsRoomy s.bytes s.ended s.rest.items (vec_capacity s.rest) s.turn s.played.played };
}

impl Stream {
    /// A stream of no text, of so many programs, 32 at most, each behind levels of these shapes, each of 1 set at least and 32 ways at
    /// most; for a cache of so many sets, 1 at least, and ways, 32 at most. NoMemory where the allocator gives no room for the longest
    /// line and for the last lines of each set. No other call takes memory.
    pub fn create(
        alloc: Global,
        levels: LevelShapes,
        sets: u32,
        ways: u8,
        programs: u8,
    ) -> Result<Stream, NoMemory>
        requires first { IfSome levels.l1 (λ s. (0 < s.sets) × (s.ways ≤ 32)) }
        requires second { IfSome levels.l2 (λ s. (0 < s.sets) × (s.ways ≤ 32)) }
        requires some { 0 < sets }
        requires ways { ways ≤ 32 }
        requires few { programs ≤ 32 }
        ensures bytes { IfOk result (λ s. s.bytes ≡ 0) }
        ensures empty { IfOk result (λ s. HasRead
            (record { levels = levels; asked = record { programs = programs; sets = sets; ways = ways } }) s []) }
    {
        let rest = Vec::with_capacity(alloc, MOST_LINE_BYTES + 1)?;
        let played = FilteredPlayed::create(alloc, levels, sets, ways, programs)?;
        Ok(Stream {
            bytes: 0,
            ended: 0,
            rest,
            turn: None,
            is_bad: false,
            played,
        })
    }

    /// How many bytes were taken.
    pub fn bytes(&self) -> u64
        ensures { result ≡ self.now.bytes }
    {
        self.bytes
    }

    /// Takes the next piece of the text, which may end anywhere.
    pub fn take(&mut self, piece: &[u8])
        requires room { self.old.bytes + length piece.now ≤ MOST_STREAM_BYTES }
        ensures bytes { self.new.bytes ≡ self.old.bytes + length piece.now }
        ensures piece { ReadsOn self.old self.new piece.now }
    {
        for byte in piece {
            self.take_byte(*byte);
        }
    }

    fn take_byte(&mut self, byte: u8)
        requires room { self.old.bytes < MOST_STREAM_BYTES }
        ensures bytes { self.new.bytes ≡ self.old.bytes + 1 }
        ensures byte { ReadsOn self.old self.new (byte ∷ []) }
    {
        if self.is_bad {
            self.bytes += 1;
        } else if byte == b'\n' {
            self.end_line();
        } else if self.rest.len() <= MOST_LINE_BYTES {
            self.bytes += 1;
            self.rest.push_reserved(byte);
        } else {
            self.bytes += 1;
            self.is_bad = true;
        }
    }

    // Takes a newline, which ends a line.
    fn end_line(&mut self)
        requires good { self.old.is_bad ≡ false }
        requires room { self.old.bytes < MOST_STREAM_BYTES }
        ensures bytes { self.new.bytes ≡ self.old.bytes + 1 }
        ensures newline { ReadsOn self.old self.new (10 ∷ []) }
    {
        let step = step_of_ended(self.played.count(), self.turn, &self.rest);
        self.bytes += 1;
        match step {
            Some(step) => {
                self.played.note_step(&step);
                self.turn = step.turn;
                self.rest.clear();
                self.ended += 1;
            }
            None => self.is_bad = true,
        }
    }

    /// The first line that is none of a stream, whatever follows. None where each line that has ended is one of a stream, and the next
    /// one is not too long so far.
    pub fn bad_line(&self) -> Option<BadStream>
        ensures told { IfSome result (λ bad. (filtering : Filtering) (text more : List ℕ) → HasRead filtering self.now text → stream_of filtering.asked.programs (text ++ more) ≡ Err bad.line) }
        ensures none { result ≡ None → (filtering : Filtering) (text : List ℕ) → HasRead filtering self.now text → IsGood filtering self.now text }
    {
        if !self.is_bad {
            return None;
        }
        Some(BadStream {
            line: self.ended + 1,
        })
    }

    /// What was played of the uses of the whole text that the levels leave; or the first line that is none of a stream. The last line of
    /// the text may lack its newline.
    pub fn finish(self) -> Result<Played, BadStream>
        ensures few { IfOk result (λ played. played.shared.uses ≤ MOST_USES) }
        ensures played { (filtering : Filtering) (text : List ℕ) → HasRead filtering self text → MatchResult result (λ played. AreOf filtering played text) (λ bad. stream_of filtering.asked.programs text ≡ Err bad.line) }
    {
        let Stream {
            bytes: _,
            ended,
            rest,
            turn,
            is_bad,
            mut played,
        } = self;
        if is_bad {
            return Err(BadStream { line: ended + 1 });
        }
        if rest.is_empty() {
            return Ok(played.into_played());
        }
        match step_of(played.count(), turn, &rest) {
            Some(step) => {
                played.note_step(&step);
                Ok(played.into_played())
            }
            None => Err(BadStream { line: ended + 1 }),
        }
    }
}
