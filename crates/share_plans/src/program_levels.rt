//! The private caches before the curve of each program.
ghost use Rattle.std.specs.Prelude.{◌≡◌, ◌<◌, ◌≤◌, [], All, IfOk, IfSome, length};
ghost use Rattle.way_curve.specs.LevelSteps.{HaveSeen, LevelsValue};
ghost use Rattle.share_plans.specs.Filtering.{HaveSeenOwn, SeeUse};

use crate::program_use::ProgramUse;
use lackey_text::LineUse;
use rc_base::NoMemory;
use std::alloc::Global;
use std::marker::Model;
use way_curve::{FirstLevels, LevelShapes};

/// The levels of each program, which no other program uses.
#[derive(Drop)]
pub struct ProgramLevels {
    programs: Vec<FirstLevels>,
}

impl Model for ProgramLevels {
    ghost use Rattle.std.specs.Prelude.{List};
    ghost use Rattle.way_curve.specs.LevelSteps.{LevelsValue};

    ghost Value = { List LevelsValue };

    ghost view = { λ l. l.programs.items };
}

// Levels of so many programs, of which no line was used.
fn unused_levels(
    alloc: Global,
    shapes: LevelShapes,
    programs: u8,
) -> Result<Vec<FirstLevels>, NoMemory>
    requires first { IfSome shapes.l1 (λ s. (0 < s.sets) × (s.ways ≤ 32)) }
    requires second { IfSome shapes.l2 (λ s. (0 < s.sets) × (s.ways ≤ 32)) }
    ensures count { IfOk result (λ levels. length levels.items ≡ programs) }
    ensures unused { IfOk result (λ levels. All (λ (l : LevelsValue). HaveSeen shapes l []) levels.items) }
{
    let mut levels = Vec::with_capacity(alloc, programs as usize)?;
    for _ in 0..programs {
        let own = FirstLevels::create(alloc, shapes)?;
        levels.push(own)?;
    }
    Ok(levels)
}

impl ProgramLevels {
    /// Levels of so many programs, of these shapes, each of 1 set at least and 32 ways at most, of which no line was used. NoMemory
    /// where the allocator gives no room for the last lines of each set of each program's levels. No other call takes memory.
    pub fn create(
        alloc: Global,
        shapes: LevelShapes,
        programs: u8,
    ) -> Result<ProgramLevels, NoMemory>
        requires first { IfSome shapes.l1 (λ s. (0 < s.sets) × (s.ways ≤ 32)) }
        requires second { IfSome shapes.l2 (λ s. (0 < s.sets) × (s.ways ≤ 32)) }
        ensures count { IfOk result (λ levels. length levels ≡ programs) }
        ensures unused { IfOk result (λ levels. HaveSeenOwn shapes levels []) }
    {
        let programs = unused_levels(alloc, shapes, programs)?;
        Ok(ProgramLevels { programs })
    }

    /// Plays a use in the levels of its program, and says whether they leave it.
    pub fn is_left(&mut self, used: ProgramUse) -> bool
        requires program { used.program < length self.old }
        ensures count { length self.new ≡ length self.old }
        ensures sees { SeeUse self.old self.new used result }
    {
        let own = LineUse {
            line: used.line,
            code: used.code,
        };
        self.programs[used.program as usize].is_left(own)
    }
}
