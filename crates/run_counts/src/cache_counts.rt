//! What is counted from the entries of several caches.
ghost use Rattle.std.specs.Prelude.{◌≡◌, ◌<◌, ◌≤◌, length, map, slice_index, IfOk};
ghost use Rattle.machine.specs.Maps.{parameters_of};
ghost use Rattle.run_counts.specs.CacheCounts.{slices_alone, valid_in};
ghost use Rattle.run_counts.specs.Tallies.{IsTallyOf};
ghost use Rattle.run_law.specs.Entries.{entries_of};

use crate::tally::Tally;
use crate::walk::Walk;
use cache_core::SliceEntry;
use machine::Machine;
use rc_base::NoMemory;
use std::alloc::Global;
use std::marker::Model;

/// The accesses, hits and misses of each group in several caches together, and how many lines each of these caches holds at the end.
#[derive(Drop)]
pub struct CacheCounts {
    tally: Tally,
    valid: Vec<u64>,
}

impl Model for CacheCounts {
    ghost use Rattle.run_counts.specs.CacheCounts.{CacheCountsValue};

    ghost Value = { CacheCountsValue };

    ghost view = { λ c. record { tally = c.tally; valid = c.valid.items } };
}

impl CacheCounts {
    /// The counts of caches of this size, each the only slice of its domain, by one walk over the entries of each.
    pub fn of(
        alloc: Global,
        machine: &Machine,
        caches: &[Vec<SliceEntry>],
    ) -> Result<CacheCounts, NoMemory>
        requires one_slice { machine.now.slices ≡ 1 }
        requires few { length caches.now ≤ 8 }
        ensures tally { IfOk result (λ c. IsTallyOf (slices_alone (map entries_of caches.now)) (length (map entries_of caches.now)) c.tally) }
        ensures valid { IfOk result (λ c. c.valid ≡ valid_in (parameters_of machine.now) (map entries_of caches.now)) }
    {
        let mut walk = Walk::create(alloc, machine)?;
        let mut valid = Vec::new(alloc);
        for i in 0..caches.len() {
            walk.lines.clear();
            walk.take_slice(machine, 0, caches[i].as_slice())?;
            valid.push(walk.lines.valid())?;
        }
        let tally = walk.tally.finish()?;
        Ok(CacheCounts { tally, valid })
    }

    /// The accesses, hits and misses of groups.
    pub fn tally(&self) -> &Tally
        ensures { result.now ≡ self.now.tally }
    {
        &self.tally
    }

    /// How many lines a cache holds at the end.
    pub fn valid(&self, i: u8) -> u64
        requires { i < length self.now.valid }
        ensures { result ≡ slice_index self.now.valid i }
    {
        self.valid[usize::from(i)]
    }
}
