//! What `filter` asks for.
ghost use Rattle.std.specs.Prelude.{◌≡◌, ◌<◌, ◌≤◌, IfSome};
ghost use Rattle.way_curve.specs.FirstLevels.{no_levels};
ghost use Rattle.plan_top.specs.FilterForms.{with_l1, with_l2};

use std::marker::Model;
use way_curve::{LevelShape, LevelShapes};

/// What `filter` asks for: the uses of a trace that these levels leave, each of 1 set at least and 32 ways at most.
#[derive(Drop)]
pub struct FilterForm {
    levels: LevelShapes,
}

impl Model for FilterForm {
    ghost use Rattle.plan_top.specs.FilterForms.{AreSized};
    ghost use Rattle.way_curve.specs.declared.first_levels.LevelShapes.{LevelShapes as Shapes};

    ghost Value = { Shapes };

    ghost view = { λ f. f.levels };

    ghost invariant = { λ f. AreSized f.levels };
}

impl FilterForm {
    /// No level.
    pub fn new() -> FilterForm
        ensures { result ≡ no_levels }
    {
        FilterForm {
            levels: LevelShapes { l1: None, l2: None },
        }
    }

    /// The same with an L1 of this shape.
    pub fn with_l1(self, level: LevelShape) -> FilterForm
        requires some { 0 < level.sets }
        requires few { level.ways ≤ 32 }
        ensures { result ≡ with_l1 self level }
    {
        FilterForm {
            levels: LevelShapes {
                l1: Some(level),
                l2: self.levels.l2,
            },
        }
    }

    /// The same with an L2 of this shape.
    pub fn with_l2(self, level: LevelShape) -> FilterForm
        requires some { 0 < level.sets }
        requires few { level.ways ≤ 32 }
        ensures { result ≡ with_l2 self level }
    {
        FilterForm {
            levels: LevelShapes {
                l1: self.levels.l1,
                l2: Some(level),
            },
        }
    }

    /// The levels.
    pub fn levels(&self) -> LevelShapes
        ensures levels { result ≡ self.now }
        ensures first { IfSome result.l1 (λ s. (0 < s.sets) × (s.ways ≤ 32)) }
        ensures second { IfSome result.l2 (λ s. (0 < s.sets) × (s.ways ≤ 32)) }
    {
        self.levels
    }
}
