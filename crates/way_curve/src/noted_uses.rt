//! The different lines of the uses of data, of code and of both.
ghost use Rattle.std.specs.Prelude.{◌≡◌, ◌<◌, ◌^◌, List, [], ◌∷◌, IfOk};
ghost use Rattle.lackey_text.specs.Lines.{IsInMemory};
ghost use Rattle.lackey_text.specs.Uses.{uses_of};
ghost use Rattle.lackey_text.specs.declared.uses.LineUse.{LineUse as Use};
ghost use Rattle.way_curve.specs.FirstUses.{first_uses_by};
ghost use Rattle.way_curve.specs.Noted.{HaveNotedUses, NoteUses};
ghost use Rattle.way_curve.specs.Samples.{sampled};

use crate::different_lines::DifferentLines;
use crate::first_uses::FirstUses;
use crate::sample::is_kept;
use lackey_text::{LackeyLine, LineUse};
use rc_base::NoMemory;
use std::alloc::Global;
use std::marker::Model;

/// The different lines of the uses of data, of those of code, and of both, unless memory ran out for one of them.
#[derive(Drop)]
pub struct NotedUses {
    of_all: DifferentLines,
    of_data: DifferentLines,
    of_code: DifferentLines,
}

impl Model for NotedUses {
    ghost use Rattle.way_curve.specs.Noted.{NotedUses as Noted};

    ghost Value = { Noted };

    ghost view = { λ n. record { of_all = n.of_all; of_data = n.of_data; of_code = n.of_code } };
}

impl NotedUses {
    /// No uses. This takes no memory.
    pub fn new(alloc: Global) -> NotedUses
        ensures { HaveNotedUses result [] }
    {
        NotedUses {
            of_all: DifferentLines::new(alloc),
            of_data: DifferentLines::new(alloc),
            of_code: DifferentLines::new(alloc),
        }
    }

    /// Notes the use of a line of memory.
    pub fn note(&mut self, used: LineUse)
        ensures { NoteUses self.old self.new (used ∷ []) }
    {
        self.of_all.note(used.line);
        if used.code {
            self.of_code.note(used.line);
        } else {
            self.of_data.note(used.line);
        }
    }

    /// Notes the uses of a line of a trace, or those of them that the sample has, if one is taken.
    pub fn note_line(&mut self, one_of: Option<u32>, said: &LackeyLine)
        requires { IsInMemory said.now }
        ensures { NoteUses self.old self.new (sampled one_of (uses_of said.now)) }
    {
        for used in said.uses() {
            if is_kept(one_of, used.line) {
                self.note(used);
            }
        }
    }

    /// How many of the uses are the first of their line. NoMemory where memory ran out for a line.
    pub fn first_uses(&self) -> Result<FirstUses, NoMemory>
        ensures { IfOk result (λ first. (uses : List Use) → HaveNotedUses self.now uses → first ≡ first_uses_by uses) }
    {
        let of_all = self.of_all.count()?;
        let of_data = self.of_data.count()?;
        let of_code = self.of_code.count()?;
        Ok(FirstUses {
            of_all,
            of_data,
            of_code,
        })
    }
}
