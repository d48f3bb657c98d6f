//! The curves of the uses that the levels before leave.
ghost use Rattle.std.specs.Prelude.{◌≡◌, ◌+◌, ◌^◌, ◌<◌, ◌≤◌, List, [], length, IfOk, IfSome};
ghost use Rattle.lackey_text.specs.Lines.{IsInMemory};
ghost use Rattle.lackey_text.specs.Uses.{uses_of};
ghost use Rattle.lackey_text.specs.declared.uses.LineUse.{LineUse as Use};
ghost use Rattle.way_curve.specs.Filtering.{AddFiltered, Filtering, HaveFiltered, HaveSeenIf, behind};
ghost use Rattle.way_curve.specs.FirstLevels.{left_by};
ghost use Rattle.way_curve.specs.FirstUses.{asked_first_uses};
ghost use Rattle.way_curve.specs.Samples.{sampled};

use crate::curves::UseCurves;
use crate::first_levels::{FirstLevels, LevelShapes};
use crate::first_uses::FirstUses;
use crate::sampled_curves::SampledCurves;
use lackey_text::LackeyLine;
use rc_base::NoMemory;
use std::alloc::Global;
use std::marker::Model;

/// The curves of those uses of a trace that miss in all levels before; of all uses where there is no level.
#[derive(Drop)]
pub struct FilteredCurves {
    levels: Option<FirstLevels>,
    sampled: SampledCurves,
}

impl Model for FilteredCurves {
    ghost use Rattle.way_curve.specs.Filtering.{FilteredValue};

    ghost Value = { FilteredValue };

    ghost view = { λ c. record { levels = c.levels; sampled = c.sampled } };
}

impl FilteredCurves {
    /// The curves of no uses behind levels of these shapes, each of 1 set at least and 32 ways at most; for caches of so many sets, 1
    /// at least, of a sample of one line of memory of so many, if one is taken, and with first uses, if they are counted. NoMemory
    /// where the allocator gives no room for the last lines of each set.
    pub fn create(
        alloc: Global,
        levels: LevelShapes,
        sets: u32,
        one_of: Option<u32>,
        has_first: bool,
    ) -> Result<FilteredCurves, NoMemory>
        requires some { 0 < sets }
        requires first { IfSome levels.l1 (λ s. (0 < s.sets) × (s.ways ≤ 32)) }
        requires second { IfSome levels.l2 (λ s. (0 < s.sets) × (s.ways ≤ 32)) }
        ensures uses { IfOk result (λ c. c.sampled.curves.uses ≡ 0) }
        ensures empty { IfOk result (λ c. HaveFiltered
            (record { levels = levels; sampling = record { sets = sets; one_of = one_of; has_first = has_first } }) c []) }
    {
        let levels = levels_of(alloc, levels)?;
        let sampled = SampledCurves::create(alloc, sets, one_of, has_first)?;
        Ok(FilteredCurves { levels, sampled })
    }

    /// Notes the uses of a line of a trace, or what the levels leave of them. Only first uses take memory; that none is left is said by
    /// `first_uses`.
    pub fn note_line(&mut self, said: &LackeyLine)
        requires memory { IsInMemory said.now }
        requires room { self.old.sampled.curves.uses + length (uses_of said.now) < 2 ^ 64 }
        ensures uses { self.new.sampled.curves.uses ≤ self.old.sampled.curves.uses + length (uses_of said.now) }
        ensures filtered { AddFiltered self.old self.new (uses_of said.now) }
    {
        match &mut self.levels {
            None => self.sampled.note_line(said),
            Some(levels) => filter_line(levels, &mut self.sampled, said),
        }
    }

    /// The curves of what was counted.
    pub fn counted(&self) -> &UseCurves
        ensures { result.now ≡ self.now.sampled.curves }
    {
        self.sampled.counted()
    }

    /// How many uses are the first of their line, of those that the levels and the sample leave; None where first uses are not counted.
    /// NoMemory where memory ran out for a line.
    pub fn first_uses(&self) -> Result<Option<FirstUses>, NoMemory>
        ensures { IfOk result (λ first. (filtering : Filtering) (uses : List Use) → HaveFiltered filtering self.now uses
            → first ≡ asked_first_uses filtering.sampling.has_first (sampled filtering.sampling.one_of (left_by filtering.levels uses))) }
    {
        self.sampled.first_uses()
    }
}

// Levels of which no line was used, if there are any.
fn levels_of(alloc: Global, shapes: LevelShapes) -> Result<Option<FirstLevels>, NoMemory>
    requires first { IfSome shapes.l1 (λ s. (0 < s.sets) × (s.ways ≤ 32)) }
    requires second { IfSome shapes.l2 (λ s. (0 < s.sets) × (s.ways ≤ 32)) }
    ensures { IfOk result (λ levels. HaveSeenIf shapes levels []) }
{
    if shapes.l1.is_none() && shapes.l2.is_none() {
        return Ok(None);
    }
    let levels = FirstLevels::create(alloc, shapes)?;
    Ok(Some(levels))
}

// Plays the uses of a line of a trace, and notes those that are left.
fn filter_line(levels: &mut FirstLevels, sampled: &mut SampledCurves, said: &LackeyLine)
    requires memory { IsInMemory said.now }
    requires room { sampled.old.curves.uses + length (uses_of said.now) < 2 ^ 64 }
    ensures uses { sampled.new.curves.uses ≤ sampled.old.curves.uses + length (uses_of said.now) }
    ensures filtered { AddFiltered (behind levels.old sampled.old) (behind levels.new sampled.new) (uses_of said.now) }
{
    for used in said.uses() {
        if levels.is_left(used) {
            sampled.note(used);
        }
    }
}
