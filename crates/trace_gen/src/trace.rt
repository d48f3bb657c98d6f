//! A trace under construction.
ghost use Rattle.std.specs.Prelude.{◌≡◌, ◌≤◌, [], ◌∷◌, ◌++◌, IfOk, OnOk, decimal};
ghost use Rattle.trace_gen.specs.Draws.{next_number, drawn_from};
ghost use Rattle.trace_gen.specs.Trace.{access_line, ended, order_number};

use crate::draws::Draws;
use crate::lines::{LINE_BYTES, TASKS, move_to, push_access_line, push_number};
use rc_base::{NoMemory, TextBuf};
use std::alloc::Global;
use std::marker::Model;

// How many bytes are enough for the lines before the order, the word `order` and the lines `thread`.
const FIXED_BYTES: usize = 512;

// How many bytes are enough for a number of the order, with its space, and an access of each task of at most 22 bytes.
const STEP_BYTES: usize = 90;

/// A trace under construction. Contracts see the number that was drawn from last, and the text. After an error, which is out
/// of memory, it is not to be used.
#[derive(Drop)]
pub(crate) struct Trace {
    draws: Draws,
    line: TextBuf,
    text: Vec<u8>,
}

impl Model for Trace {
    ghost use Rattle.std.specs.Prelude.{◌≡◌, ◌≤◌, []};
    ghost use Rattle.trace_gen.specs.Making.{Making};
    ghost use Rattle.trace_gen.specs.declared.lines.TheConstants.{LINE_BYTES};

    ghost Value = { Making };

    ghost view = { λ t. record { last = t.draws.last; text = t.text.items } };

    ghost invariant = { λ t. (t.line.bytes ≡ []) × (LINE_BYTES ≤ t.line.spare) };
}

impl Trace {
    /// Nothing yet of the trace of this number, with room for the whole.
    pub(crate) fn create(alloc: Global, n: u32) -> Result<Trace, NoMemory>
        ensures last { IfOk result (λ t. t.last ≡ n) }
        ensures text { IfOk result (λ t. t.text ≡ []) }
    {
        let line = TextBuf::with_room(alloc, LINE_BYTES)?;
        let text = Vec::with_capacity(alloc, FIXED_BYTES + STEP_BYTES * n as usize)?;
        let draws = Draws::after(n);
        Ok(Trace { draws, line, text })
    }

    /// Adds these bytes.
    pub(crate) fn push(&mut self, piece: &[u8]) -> Result<(), NoMemory>
        ensures last { self.new.last ≡ self.old.last }
        ensures text { OnOk result (self.new.text ≡ self.old.text ++ piece.now) }
    {
        match self.text.extend_from_slice(piece) {
            Ok(()) => Ok(()),
            Err(_) => Err(NoMemory),
        }
    }

    /// Adds the next number of an order.
    pub(crate) fn push_order_number(&mut self) -> Result<(), NoMemory>
        ensures last { self.new.last ≡ next_number self.old.last }
        ensures text { OnOk result (self.new.text ≡ self.old.text ++ (32 ∷ decimal (order_number (drawn_from self.new.last)))) }
    {
        push_number(1 + u64::from(self.draws.draw()) % TASKS, &mut self.line);
        move_to(&mut self.line, &mut self.text)
    }

    /// Adds the next access of a task.
    pub(crate) fn push_access(&mut self, task: u64) -> Result<(), NoMemory>
        requires some { 1 ≤ task }
        requires few { task ≤ TASKS }
        ensures last { self.new.last ≡ next_number self.old.last }
        ensures text { OnOk result (self.new.text ≡ self.old.text ++ ended (access_line task (drawn_from self.new.last))) }
    {
        push_access_line(task, self.draws.draw(), &mut self.line);
        move_to(&mut self.line, &mut self.text)
    }

    /// The text. It takes no memory.
    pub(crate) fn into_text(self) -> Vec<u8>
        ensures { result.items ≡ self.text }
    {
        self.text
    }
}
