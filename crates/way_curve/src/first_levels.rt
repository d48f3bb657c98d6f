//! The private caches before the one that is asked about.
ghost use Rattle.std.specs.Prelude.{◌≡◌, ◌<◌, ◌≤◌, ◌++◌, ◌∷◌, ℕ, List, [], Option, IfOk, IfSome};
ghost use Rattle.way_curve.specs.LevelSteps.{HaveSeen, IsLevel, SeesUse, is_left_line};
ghost use Rattle.way_curve.specs.declared.first_level.LevelShape.{LevelShape as Shape};

use crate::first_level::{FirstLevel, LevelShape};
use lackey_text::LineUse;
use rc_base::NoMemory;
use std::alloc::Global;
use std::marker::Model;

/// The levels that a trace is played through before it is counted; there may be none.
#[derive(Clone, Copy, Debug, PartialEq, Eq)]
pub struct LevelShapes {
    /// The L1 for data, and one of the same shape for code.
    pub l1: Option<LevelShape>,
    /// The L2 for both, which is used where the L1 misses.
    pub l2: Option<LevelShape>,
}

/// The levels, with the lines that were used in them.
#[derive(Drop)]
pub struct FirstLevels {
    of_data: Option<FirstLevel>,
    of_code: Option<FirstLevel>,
    second: Option<FirstLevel>,
}

impl Model for FirstLevels {
    ghost use Rattle.way_curve.specs.LevelSteps.{LevelsValue};

    ghost Value = { LevelsValue };

    ghost view = { λ l. record { of_data = l.of_data; of_code = l.of_code; second = l.second } };
}

impl FirstLevels {
    /// Levels of which no line was used.
    pub fn create(alloc: Global, shapes: LevelShapes) -> Result<FirstLevels, NoMemory>
        requires first { IfSome shapes.l1 (λ s. (0 < s.sets) × (s.ways ≤ 32)) }
        requires second { IfSome shapes.l2 (λ s. (0 < s.sets) × (s.ways ≤ 32)) }
        ensures { IfOk result (λ levels. HaveSeen shapes levels []) }
    {
        let of_data = level_of(alloc, shapes.l1)?;
        let of_code = level_of(alloc, shapes.l1)?;
        let second = level_of(alloc, shapes.l2)?;
        Ok(FirstLevels {
            of_data,
            of_code,
            second,
        })
    }

    /// Plays a use, and says whether it is left: whether it misses in the L1 of its kind, and then in the L2.
    pub fn is_left(&mut self, used: LineUse) -> bool
        ensures { SeesUse self.old self.new used result }
    {
        if used.code {
            is_left_by(&mut self.of_code, used.line) && is_left_by(&mut self.second, used.line)
        } else {
            is_left_by(&mut self.of_data, used.line) && is_left_by(&mut self.second, used.line)
        }
    }
}

// A level of this shape, if there is one.
fn level_of(alloc: Global, shape: Option<LevelShape>) -> Result<Option<FirstLevel>, NoMemory>
    requires { IfSome shape (λ s. (0 < s.sets) × (s.ways ≤ 32)) }
    ensures { IfOk result (λ level. IsLevel shape [] level) }
{
    match shape {
        None => Ok(None),
        Some(shape) => {
            let level = FirstLevel::create(alloc, shape)?;
            Ok(Some(level))
        }
    }
}

// Whether a level leaves the use of a line; where there is no level, it does.
fn is_left_by(level: &mut Option<FirstLevel>, line: u64) -> bool
    ensures used { (shape : Option Shape) (lines : List ℕ) → IsLevel shape lines level.old → IsLevel shape (lines ++ line ∷ []) level.new }
    ensures left { (shape : Option Shape) (lines : List ℕ) → IsLevel shape lines level.old → result ≡ is_left_line shape lines line }
{
    match level {
        None => true,
        Some(level) => level.misses(line),
    }
}
