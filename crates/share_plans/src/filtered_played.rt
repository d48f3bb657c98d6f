//! The uses of several programs that their levels leave, played.
ghost use Rattle.std.specs.Prelude.{◌≡◌, ◌+◌, ◌^◌, ◌<◌, ◌≤◌, [], IfOk, IfSome, Some, length};
ghost use Rattle.lackey_text.specs.Lines.{IsInMemory};
ghost use Rattle.lackey_text.specs.Uses.{uses_of};
ghost use Rattle.share_plans.specs.Filtering.{AddFiltered, HaveFiltered, HaveLevels, HaveSeenIf, behind};
ghost use Rattle.share_plans.specs.Streams.{uses_by, uses_in};

use crate::played::Played;
use crate::program_levels::ProgramLevels;
use crate::program_use::ProgramUse;
use crate::step::Step;
use lackey_text::LackeyLine;
use rc_base::NoMemory;
use std::alloc::Global;
use std::marker::Model;
use way_curve::LevelShapes;

/// Those uses of several programs that miss in all levels of their own program, played; all uses where there is no level.
#[derive(Drop)]
pub struct FilteredPlayed {
    levels: Option<ProgramLevels>,
    played: Played,
}

impl Model for FilteredPlayed {
    ghost use Rattle.std.specs.Prelude.{length};
    ghost use Rattle.share_plans.specs.Filtering.{FilteredValue, HaveLevels};

    ghost Value = { FilteredValue };

    ghost view = { λ p. record { levels = p.levels; played = p.played } };

    ghost invariant = { λ p. HaveLevels (length p.played.programs) p.levels };
}

impl FilteredPlayed {
    /// No uses of so many programs, 32 at most, each behind levels of these shapes, each of 1 set at least and 32 ways at most; for
    /// caches of so many sets, 1 at least, of which one with so many ways, 32 at most, is shared. NoMemory where the allocator gives no
    /// room for the last lines of each set. No other call takes memory.
    pub fn create(
        alloc: Global,
        levels: LevelShapes,
        sets: u32,
        ways: u8,
        programs: u8,
    ) -> Result<FilteredPlayed, NoMemory>
        requires first { IfSome levels.l1 (λ s. (0 < s.sets) × (s.ways ≤ 32)) }
        requires second { IfSome levels.l2 (λ s. (0 < s.sets) × (s.ways ≤ 32)) }
        requires some { 0 < sets }
        requires ways { ways ≤ 32 }
        requires few { programs ≤ 32 }
        ensures uses { IfOk result (λ p. p.played.shared.uses ≡ 0) }
        ensures count { IfOk result (λ p. length p.played.programs ≡ programs) }
        ensures empty { IfOk result (λ p. HaveFiltered
            (record { levels = levels; asked = record { programs = programs; sets = sets; ways = ways } }) p []) }
    {
        let levels = levels_of(alloc, levels, programs)?;
        let played = Played::create(alloc, sets, ways, programs)?;
        Ok(FilteredPlayed { levels, played })
    }

    /// Notes what the levels leave of the uses that a line of a stream says.
    pub(crate) fn note_step(&mut self, step: &Step)
        requires program { IfSome step.now.turn (λ program. program < length self.old.played.programs) }
        requires memory { IsInMemory step.now.said }
        requires room { self.old.played.shared.uses + length (uses_of step.now.said) < 2 ^ 64 }
        ensures count { length self.new.played.programs ≡ length self.old.played.programs }
        ensures uses { self.new.played.shared.uses ≤ self.old.played.shared.uses + length (uses_of step.now.said) }
        ensures filtered { AddFiltered self.old self.new (uses_in step.now) }
    {
        match &mut self.levels {
            None => self.played.note_step(step),
            Some(levels) => filter_step(levels, &mut self.played, step),
        }
    }

    /// How many programs there are.
    pub fn count(&self) -> u8
        ensures { result ≡ length self.now.played.programs }
    {
        self.played.count()
    }

    /// What was played of the uses that the levels leave.
    pub fn into_played(self) -> Played
        ensures { result ≡ self.played }
    {
        let FilteredPlayed { levels: _, played } = self;
        played
    }
}

// Levels of so many programs, of which no line was used, if there are any.
fn levels_of(
    alloc: Global,
    shapes: LevelShapes,
    programs: u8,
) -> Result<Option<ProgramLevels>, NoMemory>
    requires first { IfSome shapes.l1 (λ s. (0 < s.sets) × (s.ways ≤ 32)) }
    requires second { IfSome shapes.l2 (λ s. (0 < s.sets) × (s.ways ≤ 32)) }
    ensures count { IfOk result (λ levels. HaveLevels programs levels) }
    ensures unused { IfOk result (λ levels. HaveSeenIf shapes levels []) }
{
    if shapes.l1.is_none() && shapes.l2.is_none() {
        return Ok(None);
    }
    let levels = ProgramLevels::create(alloc, shapes, programs)?;
    Ok(Some(levels))
}

// Plays the uses that a line of a stream says, and notes those that are left.
fn filter_step(levels: &mut ProgramLevels, played: &mut Played, step: &Step)
    requires levels { length levels.old ≡ length played.old.programs }
    requires program { IfSome step.now.turn (λ program. program < length played.old.programs) }
    requires memory { IsInMemory step.now.said }
    requires room { played.old.shared.uses + length (uses_of step.now.said) < 2 ^ 64 }
    ensures levels { length levels.new ≡ length levels.old }
    ensures count { length played.new.programs ≡ length played.old.programs }
    ensures uses { played.new.shared.uses ≤ played.old.shared.uses + length (uses_of step.now.said) }
    ensures filtered { AddFiltered (behind levels.old played.old) (behind levels.new played.new) (uses_in step.now) }
{
    if let Some(program) = step.turn {
        filter_uses(levels, played, program, &step.said);
    }
}

// Plays the uses of a program by a line of a trace, and notes those that are left.
fn filter_uses(levels: &mut ProgramLevels, played: &mut Played, program: u8, said: &LackeyLine)
    requires levels { length levels.old ≡ length played.old.programs }
    requires program { program < length played.old.programs }
    requires memory { IsInMemory said.now }
    requires room { played.old.shared.uses + length (uses_of said.now) < 2 ^ 64 }
    ensures levels { length levels.new ≡ length levels.old }
    ensures count { length played.new.programs ≡ length played.old.programs }
    ensures uses { played.new.shared.uses ≤ played.old.shared.uses + length (uses_of said.now) }
    ensures filtered { AddFiltered (behind levels.old played.old) (behind levels.new played.new) (uses_by (Some program) (uses_of said.now)) }
{
    for used in said.uses() {
        let used = ProgramUse {
            program,
            line: used.line,
            code: used.code,
        };
        if levels.is_left(used) {
            played.note(used);
        }
    }
}
