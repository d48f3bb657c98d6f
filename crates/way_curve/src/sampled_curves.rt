//! The curves of all uses, or of those of a sample of the lines, and the first uses among them.
ghost use Rattle.std.specs.Prelude.{◌≡◌, ◌+◌, ◌-◌, ◌^◌, ◌<◌, ◌≤◌, List, [], ◌∷◌, length, IfOk, IfSome, is_some};
ghost use Rattle.lackey_text.specs.declared.uses.LineUse.{LineUse as Use};
ghost use Rattle.lackey_text.specs.Lines.{IsInMemory};
ghost use Rattle.lackey_text.specs.Uses.{uses_of};
ghost use Rattle.way_curve.specs.Counting.{AddUses};
ghost use Rattle.way_curve.specs.FirstUses.{asked_first_uses};
ghost use Rattle.way_curve.specs.Noted.{HaveNotedUses};
ghost use Rattle.way_curve.specs.Samples.{sampled};
ghost use Rattle.way_curve.specs.Sampling.{AddSampled, HaveSampled, NoteFirst, Sampling};

use crate::curves::UseCurves;
use crate::first_uses::FirstUses;
use crate::noted_uses::NotedUses;
use crate::sample::is_kept;
use lackey_text::{LackeyLine, LineUse};
use rc_base::NoMemory;
use std::alloc::Global;
use std::marker::Model;

/// The curves of the uses of a trace: of all of them, or of those of one line of memory of so many; and how many of them are the first
/// of their line, if that is asked for.
#[derive(Drop)]
pub struct SampledCurves {
    one_of: Option<u32>,
    curves: UseCurves,
    first: Option<NotedUses>,
}

impl Model for SampledCurves {
    ghost use Rattle.way_curve.specs.Sampling.{SampledValue};

    ghost Value = { SampledValue };

    ghost view = { λ c. record { one_of = c.one_of; curves = c.curves; first = c.first } };
}

impl SampledCurves {
    /// The curves of no uses, for caches of so many sets, 1 at least, of a sample of one line of memory of so many, if one is taken, and
    /// with first uses, if they are counted. NoMemory where the allocator gives no room for the last lines of each set.
    pub fn create(
        alloc: Global,
        sets: u32,
        one_of: Option<u32>,
        has_first: bool,
    ) -> Result<SampledCurves, NoMemory>
        requires { 0 < sets }
        ensures uses { IfOk result (λ c. c.curves.uses ≡ 0) }
        ensures empty { IfOk result (λ c. HaveSampled (record { sets = sets; one_of = one_of; has_first = has_first }) c []) }
    {
        let curves = UseCurves::create(alloc, sets)?;
        let first = noted_if(has_first, alloc);
        Ok(SampledCurves {
            one_of,
            curves,
            first,
        })
    }

    /// Notes the uses of a line of a trace, or those of them that the sample has. Only first uses take memory; that none is left is
    /// said by `first_uses`.
    pub fn note_line(&mut self, said: &LackeyLine)
        requires memory { IsInMemory said.now }
        requires room { self.old.curves.uses + length (uses_of said.now) < 2 ^ 64 }
        ensures uses { self.new.curves.uses ≤ self.old.curves.uses + length (uses_of said.now) }
        ensures sampled { AddSampled self.old self.new (uses_of said.now) }
    {
        count_line(&mut self.curves, self.one_of, said);
        note_first(&mut self.first, self.one_of, said);
    }

    /// Notes the use of a line of memory, if the sample has it.
    pub fn note(&mut self, used: LineUse)
        requires room { self.old.curves.uses < 2 ^ 64 - 1 }
        ensures uses { self.new.curves.uses ≤ self.old.curves.uses + 1 }
        ensures sampled { AddSampled self.old self.new (used ∷ []) }
    {
        if is_kept(self.one_of, used.line) {
            self.curves.note(used);
            note_used(&mut self.first, used);
        }
    }

    /// The curves of what was counted.
    pub fn counted(&self) -> &UseCurves
        ensures { result.now ≡ self.now.curves }
    {
        &self.curves
    }

    /// How many uses are the first of their line, of those that the sample has; None where first uses are not counted. NoMemory where
    /// memory ran out for a line.
    pub fn first_uses(&self) -> Result<Option<FirstUses>, NoMemory>
        ensures { IfOk result (λ first. (sampling : Sampling) (uses : List Use) → HaveSampled sampling self.now uses
            → first ≡ asked_first_uses sampling.has_first (sampled sampling.one_of uses)) }
    {
        match &self.first {
            None => Ok(None),
            Some(noted) => {
                let first = noted.first_uses()?;
                Ok(Some(first))
            }
        }
    }
}

// No uses, if first uses are counted.
fn noted_if(has_first: bool, alloc: Global) -> Option<NotedUses>
    ensures counted { is_some result ≡ has_first }
    ensures empty { IfSome result (λ noted. HaveNotedUses noted []) }
{
    if has_first {
        Some(NotedUses::new(alloc))
    } else {
        None
    }
}

// Counts the uses of a line of a trace, or those of them that the sample has.
fn count_line(curves: &mut UseCurves, one_of: Option<u32>, said: &LackeyLine)
    requires memory { IsInMemory said.now }
    requires room { curves.old.uses + length (uses_of said.now) < 2 ^ 64 }
    ensures uses { curves.new.uses ≤ curves.old.uses + length (uses_of said.now) }
    ensures counted { AddUses curves.old curves.new (sampled one_of (uses_of said.now)) }
{
    match one_of {
        None => curves.note_line(said),
        Some(one_of) => curves.note_sample(one_of, said),
    }
}

// Notes their lines, where first uses are counted.
fn note_first(first: &mut Option<NotedUses>, one_of: Option<u32>, said: &LackeyLine)
    requires { IsInMemory said.now }
    ensures { NoteFirst first.old first.new (sampled one_of (uses_of said.now)) }
{
    if let Some(noted) = first {
        noted.note_line(one_of, said);
    }
}

// Notes the line of a use, where first uses are counted.
fn note_used(first: &mut Option<NotedUses>, used: LineUse)
    ensures { NoteFirst first.old first.new (used ∷ []) }
{
    if let Some(noted) = first {
        noted.note(used);
    }
}
