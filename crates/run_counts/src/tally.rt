//! The accesses, hits and misses of each group and of all groups.
ghost use Rattle.std.specs.Prelude.{◌≡◌, ℕ, ◌^◌, OnOk};
ghost use Rattle.run_counts.specs.Tallies.{AreAtMost, added, at, nothing};

use crate::counts::Counts;
use indexmap::IndexMap;
use rc_base::NoMemory;
use std::alloc::Global;
use std::marker::Model;

/// The accesses, hits and misses of each group that has some, by its gid, and those of all groups.
#[derive(Drop)]
pub struct Tally {
    groups: IndexMap<u32, Counts>,
    all: Counts,
}

impl Model for Tally {
    ghost use Rattle.run_counts.specs.Tallies.{TallyValue};

    ghost Value = { TallyValue };

    ghost view = { λ t. record { groups = t.groups.entries; all = t.all } };
}

impl Tally {
    /// No group has an access.
    pub(crate) fn create(alloc: Global) -> Tally
        ensures groups { (gid : ℕ) → at result gid ≡ nothing }
        ensures all { result.all ≡ nothing }
    {
        Tally {
            groups: IndexMap::new(alloc),
            all: Counts::NOTHING,
        }
    }

    /// The counts of a group.
    pub fn of(&self, gid: u32) -> Counts
        ensures { result ≡ at self.now gid }
    {
        self.groups.get(&gid).copied().unwrap_or(Counts::NOTHING)
    }

    /// The counts of all groups.
    pub fn all(&self) -> Counts
        ensures { result ≡ self.now.all }
    {
        self.all
    }

    /// Adds accesses of a group.
    pub(crate) fn add(&mut self, gid: u32, counts: Counts) -> Result<(), NoMemory>
        requires group { AreAtMost (2 ^ 63) (added (at self.old gid) counts) }
        requires all { AreAtMost (2 ^ 63) (added self.old.all counts) }
        ensures own { OnOk result (at self.new gid ≡ added (at self.old gid) counts) }
        ensures others { OnOk result ((other : ℕ) → (other ≡ gid → ⊥) → at self.new other ≡ at self.old other) }
        ensures all { OnOk result (self.new.all ≡ added self.old.all counts) }
    {
        let sum = self.of(gid).added(counts);
        self.groups.insert(gid, sum)?;
        self.all = self.all.added(counts);
        Ok(())
    }
}
