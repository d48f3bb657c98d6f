//! The different lines among those that are used.
ghost use Rattle.std.specs.Prelude.{◌≡◌, ◌<◌, ◌^◌, ℕ, List, [], ◌∷◌, IfOk};
ghost use Rattle.way_curve.specs.FirstUses.{first_uses_of};
ghost use Rattle.way_curve.specs.Noted.{HaveNoted, NoteLines};

use rc_base::NoMemory;
use std::alloc::Global;
use std::collections::HashSet;
use std::marker::Model;

/// The different lines that were used, unless memory ran out for one of them. A hash finds a line, in a time that does not grow
/// with the lines.
#[derive(Drop)]
pub struct DifferentLines {
    lines: HashSet<u64>,
    is_out: bool,
}

impl Model for DifferentLines {
    ghost use Rattle.way_curve.specs.Noted.{NotedLines};

    ghost Value = { NotedLines };

    ghost view = { λ d. record { lines = d.lines.keys; is_out = d.is_out } };
}

impl DifferentLines {
    /// No line. This takes no memory.
    pub fn new(alloc: Global) -> DifferentLines
        ensures { HaveNoted result [] }
    {
        DifferentLines {
            lines: HashSet::new(alloc),
            is_out: false,
        }
    }

    /// Notes the use of a line.
    pub fn note(&mut self, line: u64)
        ensures { NoteLines self.old self.new (line ∷ []) }
    {
        if self.is_out {
            return;
        }
        match self.lines.insert(line) {
            Ok(_) => {}
            Err(_) => self.is_out = true,
        }
    }

    /// How many different lines were used. NoMemory where memory ran out for one of them.
    pub fn count(&self) -> Result<u64, NoMemory>
        ensures small { IfOk result (λ n. n < 2 ^ 63) }
        ensures count { IfOk result (λ n. (lines : List ℕ) → HaveNoted self.now lines → n ≡ first_uses_of lines) }
    {
        if self.is_out {
            return Err(NoMemory);
        }
        Ok(self.lines.len() as u64)
    }
}
