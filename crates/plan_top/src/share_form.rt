//! What `share` asks for.
ghost use Rattle.std.specs.Prelude.{◌≡◌, ◌<◌, ◌≤◌, [], All, IfSome, length};
ghost use Rattle.plan_top.specs.ShareForms.{shared_by as shared_with, with_l1, with_l2};
ghost use Rattle.plan_top.specs.declared.share_form.Wish.{Wish as Asked};
ghost use Rattle.share_plans.specs.declared.division_limits.TheConstants.{MOST_PROGRAMS, MOST_WEIGHT};
ghost use Rattle.share_plans.specs.declared.goal.Goal.TheVariants.{Misses};
ghost use Rattle.way_curve.specs.FirstLevels.{no_levels};

use arrayvec::ArrayVec;
use share_plans::{Goal, MOST_PROGRAMS};
use std::marker::Model;
use way_curve::{LevelShape, LevelShapes};

/// What a program asks of a division.
#[derive(Clone, Copy, Debug, Default, PartialEq, Eq)]
pub struct Wish {
    /// How much a miss of it counts, from 1 to `share_plans::MOST_WEIGHT`.
    pub weight: u32,
    /// The fewest ways that it gets, from 1 to 32.
    pub least: u8,
}

/// The wishes of some programs.
pub type Wishes = ArrayVec<Wish, MOST_PROGRAMS>;

/// What `share SETS WAYS [--l1 SETSxWAYS] [--l2 SETSxWAYS] [--ratio] WEIGHT:LEAST ..` asks for: the misses of several programs, each behind
/// an L1 and an L2 of its own if they are given, in a cache of so many sets, 1 at least, and ways, 32 at most, if they share it and if its
/// ways are divided so that the goal is reached best. The programs are numbered from 0 on,
/// in the order of their wishes.
#[derive(Drop)]
pub struct ShareForm {
    sets: u32,
    ways: u8,
    levels: LevelShapes,
    goal: Goal,
    wishes: Wishes,
}

impl Model for ShareForm {
    ghost use Rattle.plan_top.specs.ShareForms.{IsShareable, ShareWords};

    ghost Value = { ShareWords };

    ghost view = { λ f. record { sets = f.sets; ways = f.ways; levels = f.levels; goal = f.goal; wishes = f.wishes.items } };

    ghost invariant = { λ f. IsShareable f.sets f.ways f.levels f.wishes.items };
}

impl ShareForm {
    /// What these numbers ask for, with no levels, for the fewest misses, and of no program.
    pub fn new(sets: u32, ways: u8) -> ShareForm
        requires some { 0 < sets }
        requires few { ways ≤ 32 }
        ensures { result ≡ record { sets = sets; ways = ways; levels = no_levels; goal = Misses; wishes = [] } }
    {
        ShareForm {
            sets,
            ways,
            levels: LevelShapes { l1: None, l2: None },
            goal: Goal::Misses,
            wishes: ArrayVec::new(),
        }
    }

    /// The same behind an L1 of this shape of each program.
    pub fn with_l1(self, level: LevelShape) -> ShareForm
        requires some { 0 < level.sets }
        requires few { level.ways ≤ 32 }
        ensures { result ≡ with_l1 self level }
    {
        ShareForm {
            sets: self.sets,
            ways: self.ways,
            levels: LevelShapes {
                l1: Some(level),
                l2: self.levels.l2,
            },
            goal: self.goal,
            wishes: self.wishes,
        }
    }

    /// The same behind an L2 of this shape of each program.
    pub fn with_l2(self, level: LevelShape) -> ShareForm
        requires some { 0 < level.sets }
        requires few { level.ways ≤ 32 }
        ensures { result ≡ with_l2 self level }
    {
        ShareForm {
            sets: self.sets,
            ways: self.ways,
            levels: LevelShapes {
                l1: self.levels.l1,
                l2: Some(level),
            },
            goal: self.goal,
            wishes: self.wishes,
        }
    }

    /// The same for this goal, and of programs with these wishes.
    pub fn shared_by(self, goal: Goal, wishes: Wishes) -> ShareForm
        requires programs { length wishes.items ≤ MOST_PROGRAMS }
        requires weights { All (λ (w : Asked). w.weight ≤ MOST_WEIGHT) wishes.items }
        ensures { result ≡ shared_with self goal wishes.items }
    {
        ShareForm {
            sets: self.sets,
            ways: self.ways,
            levels: self.levels,
            goal,
            wishes,
        }
    }

    /// How many sets the cache has, 1 at least.
    pub fn sets(&self) -> u32
        ensures sets { result ≡ self.now.sets }
        ensures some { 0 < result }
    {
        self.sets
    }

    /// How many ways it has, 32 at most.
    pub fn ways(&self) -> u8
        ensures ways { result ≡ self.now.ways }
        ensures few { result ≤ 32 }
    {
        self.ways
    }

    /// The levels of each program, each of 1 set at least and 32 ways at most.
    pub fn levels(&self) -> LevelShapes
        ensures levels { result ≡ self.now.levels }
        ensures first { IfSome result.l1 (λ s. (0 < s.sets) × (s.ways ≤ 32)) }
        ensures second { IfSome result.l2 (λ s. (0 < s.sets) × (s.ways ≤ 32)) }
    {
        self.levels
    }

    /// What a division is to achieve.
    pub fn goal(&self) -> Goal
        ensures { result ≡ self.now.goal }
    {
        self.goal
    }

    /// What each program asks of a division, of 32 programs at most.
    pub fn wishes(&self) -> &[Wish]
        ensures wishes { result.now ≡ self.now.wishes }
        ensures few { length result.now ≤ MOST_PROGRAMS }
        ensures weights { All (λ (w : Asked). w.weight ≤ MOST_WEIGHT) result.now }
    {
        self.wishes.as_slice()
    }
}
