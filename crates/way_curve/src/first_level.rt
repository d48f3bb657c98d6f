//! A private cache before the one that is asked about.
ghost use Rattle.std.specs.Prelude.{◌≡◌, ◌<◌, ◌≤◌, ℕ, List, [], IfOk};
ghost use Rattle.way_curve.specs.Distances.{is_below};
ghost use Rattle.way_curve.specs.FirstLevels.{is_missing};
ghost use Rattle.way_curve.specs.LevelSteps.{HasUsed, UsesLine};

use crate::curve::{empty_sets, set_of};
use crate::recent_lines::RecentLines;
use rc_base::NoMemory;
use std::alloc::Global;
use std::marker::Model;

/// How many sets the caches of a level have, 1 at least, and of how many ways, 32 at most.
#[derive(Clone, Copy, Debug, PartialEq, Eq)]
pub struct LevelShape {
    /// The sets.
    pub sets: u32,
    /// The ways.
    pub ways: u8,
}

/// A private cache that replaces the line used longest ago. Contracts see which lines were used in it (`HasUsed`).
#[derive(Drop)]
pub struct FirstLevel {
    recent: Vec<RecentLines>,
    ways: u8,
}

impl Model for FirstLevel {
    ghost use Rattle.std.specs.Prelude.{length};
    ghost use Rattle.way_curve.specs.LevelSteps.{IsSized, LevelValue};

    ghost Value = { LevelValue };

    ghost view = { λ c. record { shape = record { sets = length c.recent.items; ways = c.ways }; recent = c.recent.items } };

    ghost invariant = { λ c. IsSized (length c.recent.items) c.ways };
}

impl FirstLevel {
    /// A cache of which no line was used. NoMemory where the allocator gives no room for the last lines of each set, which take 264
    /// bytes. No other call takes memory.
    pub fn create(alloc: Global, shape: LevelShape) -> Result<FirstLevel, NoMemory>
        requires some { 0 < shape.sets }
        requires few { shape.ways ≤ 32 }
        ensures shape { IfOk result (λ c. c.shape ≡ shape) }
        ensures empty { IfOk result (λ c. HasUsed c []) }
    {
        let recent = empty_sets(alloc, shape.sets)?;
        Ok(FirstLevel {
            recent,
            ways: shape.ways,
        })
    }

    /// Uses a line, and says whether it was not there.
    pub fn misses(&mut self, line: u64) -> bool
        ensures shape { self.new.shape ≡ self.old.shape }
        ensures used { UsesLine self.old self.new line }
        ensures misses { (lines : List ℕ) → HasUsed self.old lines → result ≡ is_missing self.old.shape lines line }
    {
        let set = set_of(self.recent.len(), line);
        let distance = self.recent[set].note(line);
        !is_within(self.ways, distance)
    }
}

// Whether a distance is below so many ways.
fn is_within(ways: u8, distance: Option<usize>) -> bool
    ensures { result ≡ is_below ways distance }
{
    match distance {
        Some(distance) => distance < ways as usize,
        None => false,
    }
}
