//! What `curve` asks for.
ghost use Rattle.std.specs.Prelude.{◌≡◌, ◌<◌, ◌≤◌, None, false, IfSome};
ghost use Rattle.way_curve.specs.FirstLevels.{no_levels};
ghost use Rattle.way_curve.specs.Samples.{sample_sets, scale_of};
ghost use Rattle.plan_top.specs.CurveForms.{with_first, with_l1, with_l2, with_sample, with_scale};

use std::marker::Model;
use way_curve::{LevelShape, LevelShapes};

/// What `curve SETS WAYS` asks for: the hits of caches of so many sets, 1 at least, with each number of ways up to this one; of all
/// uses, or of those that an L1 and an L2 before leave; of all lines, or of a sample of one line of so many, whose misses may be scaled; with first
/// uses or without.
#[derive(Drop)]
pub struct CurveForm {
    sets: u32,
    ways: u8,
    levels: LevelShapes,
    one_of: Option<u32>,
    is_scaled: bool,
    has_first: bool,
}

impl Model for CurveForm {
    ghost use Rattle.plan_top.specs.CurveForms.{CurveWords, IsInRange};

    ghost Value = { CurveWords };

    ghost view = { λ f. record { sets = f.sets; ways = f.ways; levels = f.levels; one_of = f.one_of; is_scaled = f.is_scaled; has_first = f.has_first } };

    ghost invariant = { λ f. IsInRange f.sets f.ways f.levels f.one_of };
}

impl CurveForm {
    /// What these numbers ask for, of all uses.
    pub fn new(sets: u32, ways: u8) -> CurveForm
        requires some { 0 < sets }
        requires few { ways ≤ 32 }
        ensures { result ≡ record { sets = sets; ways = ways; levels = no_levels; one_of = None; is_scaled = false; has_first = false } }
    {
        CurveForm {
            sets,
            ways,
            levels: LevelShapes { l1: None, l2: None },
            one_of: None,
            is_scaled: false,
            has_first: false,
        }
    }

    /// The same behind an L1 of this shape.
    pub fn with_l1(self, level: LevelShape) -> CurveForm
        requires some { 0 < level.sets }
        requires few { level.ways ≤ 32 }
        ensures { result ≡ with_l1 self level }
    {
        CurveForm {
            sets: self.sets,
            ways: self.ways,
            levels: LevelShapes {
                l1: Some(level),
                l2: self.levels.l2,
            },
            one_of: self.one_of,
            is_scaled: self.is_scaled,
            has_first: self.has_first,
        }
    }

    /// The same behind an L2 of this shape.
    pub fn with_l2(self, level: LevelShape) -> CurveForm
        requires some { 0 < level.sets }
        requires few { level.ways ≤ 32 }
        ensures { result ≡ with_l2 self level }
    {
        CurveForm {
            sets: self.sets,
            ways: self.ways,
            levels: LevelShapes {
                l1: self.levels.l1,
                l2: Some(level),
            },
            one_of: self.one_of,
            is_scaled: self.is_scaled,
            has_first: self.has_first,
        }
    }

    /// The same of a sample of one line of so many.
    pub fn sampled(self, one_of: u32) -> CurveForm
        requires some { 0 < one_of }
        requires few { one_of ≤ self.sets }
        ensures { result ≡ with_sample self one_of }
    {
        CurveForm {
            sets: self.sets,
            ways: self.ways,
            levels: self.levels,
            one_of: Some(one_of),
            is_scaled: self.is_scaled,
            has_first: self.has_first,
        }
    }

    /// The same with the misses of the sample scaled.
    pub fn scaled(self) -> CurveForm
        ensures { result ≡ with_scale self }
    {
        CurveForm {
            sets: self.sets,
            ways: self.ways,
            levels: self.levels,
            one_of: self.one_of,
            is_scaled: true,
            has_first: self.has_first,
        }
    }

    /// The same with first uses.
    pub fn with_first(self) -> CurveForm
        ensures { result ≡ with_first self }
    {
        CurveForm {
            sets: self.sets,
            ways: self.ways,
            levels: self.levels,
            one_of: self.one_of,
            is_scaled: self.is_scaled,
            has_first: true,
        }
    }

    /// The levels that the trace is played through before it is counted, each of 1 set at least and 32 ways at most.
    pub fn levels(&self) -> LevelShapes
        ensures levels { result ≡ self.now.levels }
        ensures first { IfSome result.l1 (λ s. (0 < s.sets) × (s.ways ≤ 32)) }
        ensures second { IfSome result.l2 (λ s. (0 < s.sets) × (s.ways ≤ 32)) }
    {
        self.levels
    }

    /// How many sets the cache has that is asked about, 1 at least.
    pub fn sets(&self) -> u32
        ensures sets { result ≡ self.now.sets }
        ensures some { 0 < result }
    {
        self.sets
    }

    /// How many sets the caches have that are counted, 1 at least: of a sample as many times fewer as it leaves out lines, rounded down.
    #[tactic(auto, using(crate::proofs::SampleSets::part_some))]
    pub fn sample_sets(&self) -> u32
        ensures sets { result ≡ sample_sets self.now.one_of self.now.sets }
        ensures some { 0 < result }
    {
        match self.one_of {
            None => self.sets,
            Some(one_of) => self.sets / one_of,
        }
    }

    /// Whether first uses are counted.
    pub fn has_first(&self) -> bool
        ensures { result ≡ self.now.has_first }
    {
        self.has_first
    }

    /// Of how many lines the sample has one, if one is taken.
    pub fn one_of(&self) -> Option<u32>
        ensures { result ≡ self.now.one_of }
    {
        self.one_of
    }

    /// By how much the misses of the sample are scaled, where that is asked for.
    pub fn scale(&self) -> Option<u32>
        ensures { result ≡ scale_of self.now.is_scaled self.now.one_of }
    {
        if self.is_scaled { self.one_of } else { None }
    }

    /// The most ways that they have, 32 at most.
    pub fn ways(&self) -> u8
        ensures ways { result ≡ self.now.ways }
        ensures few { result ≤ 32 }
    {
        self.ways
    }
}
