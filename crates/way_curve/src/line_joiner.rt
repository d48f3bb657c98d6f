//! Joins the bytes of a trace to lines.
ghost use Rattle.std.specs.Prelude.{◌≡◌, ◌+◌, ◌-◌, ◌^◌, ◌<◌, ℕ, List, [], IfOk};
ghost use Rattle.lackey_text.specs.declared.uses.LineUse.{LineUse as Use};
ghost use Rattle.way_curve.specs.declared.line_joiner.Joined.TheVariants.{Bad};
ghost use Rattle.way_curve.specs.Joining.{EndsText, IfSaid, Joins, JoinsByte};
ghost use Rattle.way_curve.specs.declared.limits.TheConstants.{MOST_TRACE_BYTES};

use crate::limits::MOST_LINE_BYTES;
use crate::said::{said_of, said_of_ended};
use lackey_text::LackeyLine;
use rc_base::NoMemory;
use std::alloc::Global;
use std::marker::Model;

/// What became of a byte of a trace, or of its end.
#[derive(Clone, Copy, Debug, PartialEq, Eq)]
pub(crate) enum Joined {
    /// No line ended.
    Open,
    /// A line ended, which says this.
    Ended(LackeyLine),
    /// A line is none of a trace, or it is too long, whatever follows.
    Bad,
}

/// The bytes of a line that has not ended, and how many lines have. Contracts see which text was joined (`Joins`).
#[derive(Drop)]
pub(crate) struct LineJoiner {
    bytes: u64,
    ended: u64,
    rest: Vec<u8>,
}

impl Model for LineJoiner {
    ghost use Rattle.std.specs.Prelude.{vec_capacity};
    ghost use Rattle.way_curve.specs.Joining.{IsLineRoomy, JoinerValue};

    ghost Value = { JoinerValue };

    ghost view = { λ j. record { bytes = j.bytes; ended = j.ended; rest = j.rest.items } };

    ghost invariant = { λ j. IsLineRoomy j.bytes j.ended j.rest.items (vec_capacity j.rest) };
}

impl LineJoiner {
    /// No text. NoMemory where the allocator gives no room for the longest line. No other call takes memory.
    pub(crate) fn create(alloc: Global) -> Result<LineJoiner, NoMemory>
        ensures bytes { IfOk result (λ j. j.bytes ≡ 0) }
        ensures empty { IfOk result (λ j. Joins j [] []) }
    {
        let rest = Vec::with_capacity(alloc, MOST_LINE_BYTES + 1)?;
        Ok(LineJoiner {
            bytes: 0,
            ended: 0,
            rest,
        })
    }

    /// Takes the next byte of the text. After `Bad` it has no meaning.
    pub(crate) fn take(&mut self, byte: u8) -> Joined
        requires room { self.old.bytes < MOST_TRACE_BYTES }
        ensures bytes { self.new.bytes ≡ self.old.bytes + 1 }
        ensures byte { JoinsByte self.old self.new byte result }
        ensures said { IfSaid result }
        ensures bad { result ≡ Bad → self.new.ended ≡ self.old.ended }
    {
        if byte == b'\n' {
            self.end_line()
        } else if self.rest.len() <= MOST_LINE_BYTES {
            self.bytes += 1;
            self.rest.push_reserved(byte);
            Joined::Open
        } else {
            self.bytes += 1;
            Joined::Bad
        }
    }

    // Takes a newline, which ends a line.
    fn end_line(&mut self) -> Joined
        requires room { self.old.bytes < MOST_TRACE_BYTES }
        ensures bytes { self.new.bytes ≡ self.old.bytes + 1 }
        ensures byte { JoinsByte self.old self.new 10 result }
        ensures said { IfSaid result }
        ensures bad { result ≡ Bad → self.new.ended ≡ self.old.ended }
    {
        let said = said_of_ended(&self.rest);
        self.bytes += 1;
        match said {
            Some(said) => {
                self.rest.clear();
                self.ended += 1;
                Joined::Ended(said)
            }
            None => Joined::Bad,
        }
    }

    /// What the last line says, which may lack its newline; `Open` where there is none.
    pub(crate) fn last(&self) -> Joined
        ensures text { (text : List ℕ) (uses : List Use) → Joins self.now text uses → EndsText self.now text uses result }
        ensures said { IfSaid result }
    {
        if self.rest.is_empty() {
            return Joined::Open;
        }
        match said_of(&self.rest) {
            Some(said) => Joined::Ended(said),
            None => Joined::Bad,
        }
    }

    /// How many lines have ended.
    pub(crate) fn ended(&self) -> u64
        ensures ended { result ≡ self.now.ended }
        ensures few { result < 2 ^ 64 - 1 }
    {
        self.ended
    }
}
