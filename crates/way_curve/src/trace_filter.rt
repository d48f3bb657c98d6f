//! What levels leave of a trace, as a trace, line by line.
ghost use Rattle.std.specs.Prelude.{◌≡◌, ◌+◌, ◌≤◌, ◌<◌, ℕ, List, [], ◌∷◌, ◌++◌, length, IfOk, IfSome, None};
ghost use Rattle.lackey_text.specs.Lines.{IsInMemory};
ghost use Rattle.lackey_text.specs.Uses.{uses_of};
ghost use Rattle.way_curve.specs.Filters.{EndsFilter, HasFiltered, TakesFilter, WritesLeft};
ghost use Rattle.way_curve.specs.declared.filter_limits.TheConstants.{MOST_FILTERED_BYTES};
ghost use Rattle.way_curve.specs.declared.first_levels.LevelShapes.{LevelShapes as Shapes};
ghost use Rattle.way_curve.specs.declared.limits.TheConstants.{MOST_TRACE_BYTES};

use crate::filter_text::push_use;
use crate::first_levels::{FirstLevels, LevelShapes};
use crate::line_joiner::{Joined, LineJoiner};
use crate::trace::BadTrace;
use lackey_text::LackeyLine;
use rc_base::{NoMemory, TextBuf};
use std::alloc::Global;
use std::marker::Model;

/// The levels that a trace is played through, and the line of it that has not ended. Contracts see which text was read, and what was
/// written of it (`HasFiltered`).
#[derive(Drop)]
pub struct TraceFilter {
    lines: LineJoiner,
    levels: FirstLevels,
}

impl Model for TraceFilter {
    ghost use Rattle.way_curve.specs.Filters.{FilterValue};

    ghost Value = { FilterValue };

    ghost view = { λ f. record { lines = f.lines; levels = f.levels } };
}

impl TraceFilter {
    /// No text behind levels of these shapes, each of 1 set at least and 32 ways at most. NoMemory where the allocator gives no room for
    /// the longest line and for the last lines of each set. No other call takes memory.
    pub fn create(alloc: Global, levels: LevelShapes) -> Result<TraceFilter, NoMemory>
        requires first { IfSome levels.l1 (λ s. (0 < s.sets) × (s.ways ≤ 32)) }
        requires second { IfSome levels.l2 (λ s. (0 < s.sets) × (s.ways ≤ 32)) }
        ensures bytes { IfOk result (λ f. f.lines.bytes ≡ 0) }
        ensures empty { IfOk result (λ f. HasFiltered levels f [] []) }
    {
        let lines = LineJoiner::create(alloc)?;
        let levels = FirstLevels::create(alloc, levels)?;
        Ok(TraceFilter { lines, levels })
    }

    /// Takes the next byte of the trace, and adds what the levels leave of the line that ends there; or tells the first line that is none
    /// of a trace, whatever follows, and adds nothing. After that it has no meaning.
    pub fn take(&mut self, byte: u8, out: &mut TextBuf) -> Option<BadTrace>
        requires bytes { self.old.lines.bytes < MOST_TRACE_BYTES }
        requires room { MOST_FILTERED_BYTES ≤ out.old.spare }
        ensures bytes { self.new.lines.bytes ≡ self.old.lines.bytes + 1 }
        ensures taken { (levels : Shapes) (text written : List ℕ) → HasFiltered levels self.old text (written ++ out.old.bytes)
            → TakesFilter levels self.new (text ++ byte ∷ []) (written ++ out.new.bytes) result }
        ensures room { length out.new.bytes + out.new.spare ≡ length out.old.bytes + out.old.spare }
        ensures spare { IfSome result (λ bad. out.new.spare ≡ out.old.spare) }
    {
        match self.lines.take(byte) {
            Joined::Open => None,
            Joined::Ended(said) => {
                push_left(&mut self.levels, &said, out);
                None
            }
            Joined::Bad => Some(self.bad_line()),
        }
    }

    // The line after those that have ended.
    fn bad_line(&self) -> BadTrace
        ensures { result.line ≡ self.now.lines.ended + 1 }
    {
        BadTrace {
            line: self.lines.ended() + 1,
        }
    }

    /// Adds what the levels leave of the last line, which may lack its newline; or tells that it is none of a trace, and adds nothing.
    pub fn finish(self, out: &mut TextBuf) -> Option<BadTrace>
        requires room { MOST_FILTERED_BYTES ≤ out.old.spare }
        ensures ends { (levels : Shapes) (text written : List ℕ) → HasFiltered levels self text (written ++ out.old.bytes)
            → EndsFilter levels text (written ++ out.new.bytes) result }
        ensures spare { IfSome result (λ bad. out.new.spare ≡ out.old.spare) }
    {
        let TraceFilter { lines, mut levels } = self;
        match lines.last() {
            Joined::Open => None,
            Joined::Ended(said) => {
                push_left(&mut levels, &said, out);
                None
            }
            Joined::Bad => Some(BadTrace {
                line: lines.ended() + 1,
            }),
        }
    }
}

// Plays the uses of a line of a trace, and adds those that are left.
fn push_left(levels: &mut FirstLevels, said: &LackeyLine, out: &mut TextBuf)
    requires memory { IsInMemory said.now }
    requires room { MOST_FILTERED_BYTES ≤ out.old.spare }
    ensures left { WritesLeft levels.old levels.new out.old.bytes out.new.bytes (uses_of said.now) }
    ensures room { length out.new.bytes + out.new.spare ≡ length out.old.bytes + out.old.spare }
{
    for used in said.uses() {
        if levels.is_left(used) {
            push_use(used, out);
        }
    }
}
