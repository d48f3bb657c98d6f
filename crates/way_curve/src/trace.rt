//! A trace whose text comes in pieces.
ghost use Rattle.std.specs.Prelude.{◌≡◌, ◌+◌, ◌≤◌, ◌<◌, ℕ, List, [], ◌++◌, length, IfOk, IfSome, MatchResult, Err, None};
ghost use Rattle.way_curve.specs.Filtering.{Filtering};
ghost use Rattle.way_curve.specs.Reading.{AreOf, HasRead, IsGood, ReadsOn};
ghost use Rattle.way_curve.specs.TraceTexts.{trace_of};
ghost use Rattle.way_curve.specs.declared.limits.TheConstants.{MOST_TRACE_BYTES};

use crate::filtered_curves::FilteredCurves;
use crate::first_levels::LevelShapes;
use crate::limits::MOST_LINE_BYTES;
use crate::said::said_of;
use crate::splitting::split_line;
use rc_base::NoMemory;
use std::alloc::Global;
use std::marker::Model;

/// A line is none of a trace, or it is too long.
#[derive(Clone, Copy, Debug, PartialEq, Eq)]
pub struct BadTrace {
    /// The number of the first such line, counted from 1.
    pub line: u64,
}

/// The curves of a trace whose text comes in pieces. Contracts see which text was read (`HasRead`).
#[derive(Drop)]
pub struct Trace {
    pub(crate) bytes: u64,
    pub(crate) ended: u64,
    pub(crate) rest: Vec<u8>,
    pub(crate) is_bad: bool,
    pub(crate) curves: FilteredCurves,
}

impl Model for Trace {
    ghost use Rattle.std.specs.Prelude.{vec_capacity};
    ghost use Rattle.way_curve.specs.Reading.{IsRoomy, TraceValue};

    ghost Value = { TraceValue };

    ghost view = { λ t. record { bytes = t.bytes; ended = t.ended; rest = t.rest.items; is_bad = t.is_bad; curves = t.curves } };

    ghost invariant = { λ t. IsRoomy t.bytes t.ended t.rest.items (vec_capacity t.rest) t.curves };
}

impl Trace {
    /// A trace of no text behind levels of these shapes, each of 1 set at least and 32 ways at most; for caches of so many sets, 1 at
    /// least, for a sample of one line of memory of so many, if one is taken, and with first uses, if they are counted. NoMemory where
    /// the allocator gives no room for the longest line and for the last lines of each set. No other call takes memory but for first
    /// uses.
    pub fn create(
        alloc: Global,
        levels: LevelShapes,
        sets: u32,
        one_of: Option<u32>,
        has_first: bool,
    ) -> Result<Trace, NoMemory>
        requires some { 0 < sets }
        requires first { IfSome levels.l1 (λ s. (0 < s.sets) × (s.ways ≤ 32)) }
        requires second { IfSome levels.l2 (λ s. (0 < s.sets) × (s.ways ≤ 32)) }
        ensures bytes { IfOk result (λ t. t.bytes ≡ 0) }
        ensures empty { IfOk result (λ t. HasRead
            (record { levels = levels; sampling = record { sets = sets; one_of = one_of; has_first = has_first } }) t []) }
    {
        let rest = Vec::with_capacity(alloc, MOST_LINE_BYTES + 1)?;
        let curves = FilteredCurves::create(alloc, levels, sets, one_of, has_first)?;
        Ok(Trace {
            bytes: 0,
            ended: 0,
            rest,
            is_bad: false,
            curves,
        })
    }

    /// Takes the next piece of the text, which may end anywhere.
    pub fn take(&mut self, piece: &[u8])
        requires room { self.old.bytes + length piece.now ≤ MOST_TRACE_BYTES }
        ensures bytes { self.new.bytes ≡ self.old.bytes + length piece.now }
        ensures piece { ReadsOn self.old self.new piece.now }
    {
        let mut left = piece;
        while let Some((line, rest)) = split_line(left) {
            self.take_ended(line);
            left = rest;
        }
        self.take_bytes(left);
    }

    /// The first line that is none of a trace, whatever follows. None where each line that has ended is one of a trace, and the
    /// next one is not too long so far.
    pub fn bad_line(&self) -> Option<BadTrace>
        ensures told { IfSome result (λ bad. (filtering : Filtering) (text more : List ℕ) → HasRead filtering self.now text → trace_of (text ++ more) ≡ Err bad.line) }
        ensures none { result ≡ None → (filtering : Filtering) (text : List ℕ) → HasRead filtering self.now text → IsGood filtering self.now text }
    {
        if !self.is_bad {
            return None;
        }
        Some(BadTrace {
            line: self.ended + 1,
        })
    }

    /// The curves of the whole text, whose last line may lack its newline; or the first line that is none of a trace.
    pub fn finish(self) -> Result<FilteredCurves, BadTrace>
        ensures { (filtering : Filtering) (text : List ℕ) → HasRead filtering self text → MatchResult result (λ curves. AreOf filtering curves text) (λ bad. trace_of text ≡ Err bad.line) }
    {
        let Trace {
            bytes: _,
            ended,
            rest,
            is_bad,
            mut curves,
        } = self;
        if is_bad {
            return Err(BadTrace { line: ended + 1 });
        }
        if rest.is_empty() {
            return Ok(curves);
        }
        match said_of(&rest) {
            Some(said) => {
                curves.note_line(&said);
                Ok(curves)
            }
            None => Err(BadTrace { line: ended + 1 }),
        }
    }
}
