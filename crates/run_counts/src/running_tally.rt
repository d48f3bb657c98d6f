//! A tally that entries are added to, one after the other.
ghost use Rattle.std.specs.Prelude.{◌≡◌, ℕ, ◌-◌, ◌<◌, ◌^◌, false, true, length, IfOk, OnOk};
ghost use Rattle.cache_core.specs.Whats.{is_access, is_access_of};
ghost use Rattle.run_counts.specs.Tallies.{IsFewWith, all_with, at, at_with, counted, counted_all, nothing, with_access};

use crate::streak::Streak;
use crate::tally::Tally;
use cache_core::{SliceEntry, What};
use rc_base::NoMemory;
use std::alloc::Global;

/// A tally, and consecutive accesses of one group that are not in it yet. They go into the table of groups at once, when the
/// group changes.
#[derive(Drop)]
pub(crate) struct RunningTally {
    tally: Tally,
    streak: Streak,
}

impl RunningTally {
    /// No group has an access.
    pub(crate) fn create(alloc: Global) -> RunningTally
        ensures groups { (gid : ℕ) → at_with result.tally result.streak gid ≡ nothing }
        ensures all { all_with result.tally result.streak ≡ nothing }
    {
        RunningTally {
            tally: Tally::create(alloc),
            streak: Streak::of(0),
        }
    }

    // Adds the streak, and begins one of another group.
    fn begin_streak(&mut self, gid: u32) -> Result<(), NoMemory>
        requires { IsFewWith (2 ^ 63) self.old.tally self.old.streak }
        ensures gid { OnOk result (self.new.streak.gid ≡ gid) }
        ensures groups { OnOk result ((other : ℕ) → at_with self.new.tally self.new.streak other ≡ at_with self.old.tally self.old.streak other) }
        ensures all { OnOk result (all_with self.new.tally self.new.streak ≡ all_with self.old.tally self.old.streak) }
    {
        self.tally.add(self.streak.gid(), self.streak.counts())?;
        self.streak = Streak::of(gid);
        Ok(())
    }

    // Sees to it that the streak is of this group.
    #[inline]
    fn turn_to(&mut self, gid: u32) -> Result<(), NoMemory>
        requires { IsFewWith (2 ^ 63) self.old.tally self.old.streak }
        ensures gid { OnOk result (self.new.streak.gid ≡ gid) }
        ensures groups { OnOk result ((other : ℕ) → at_with self.new.tally self.new.streak other ≡ at_with self.old.tally self.old.streak other) }
        ensures all { OnOk result (all_with self.new.tally self.new.streak ≡ all_with self.old.tally self.old.streak) }
    {
        if self.streak.gid() == gid {
            return Ok(());
        }
        self.begin_streak(gid)
    }

    /// Adds an access of a group that hit.
    #[inline]
    pub(crate) fn add_hit(&mut self, gid: u32) -> Result<(), NoMemory>
        requires { IsFewWith (2 ^ 63) self.old.tally self.old.streak }
        ensures own { OnOk result (at_with self.new.tally self.new.streak gid ≡ with_access true (at_with self.old.tally self.old.streak gid)) }
        ensures others { OnOk result ((other : ℕ) → (other ≡ gid → ⊥) → at_with self.new.tally self.new.streak other ≡ at_with self.old.tally self.old.streak other) }
        ensures all { OnOk result (all_with self.new.tally self.new.streak ≡ with_access true (all_with self.old.tally self.old.streak)) }
    {
        self.turn_to(gid)?;
        self.streak.add_hit();
        Ok(())
    }

    /// Adds an access of a group that missed.
    #[inline]
    pub(crate) fn add_miss(&mut self, gid: u32) -> Result<(), NoMemory>
        requires { IsFewWith (2 ^ 63) self.old.tally self.old.streak }
        ensures own { OnOk result (at_with self.new.tally self.new.streak gid ≡ with_access false (at_with self.old.tally self.old.streak gid)) }
        ensures others { OnOk result ((other : ℕ) → (other ≡ gid → ⊥) → at_with self.new.tally self.new.streak other ≡ at_with self.old.tally self.old.streak other) }
        ensures all { OnOk result (all_with self.new.tally self.new.streak ≡ with_access false (all_with self.old.tally self.old.streak)) }
    {
        self.turn_to(gid)?;
        self.streak.add_miss();
        Ok(())
    }

    // Adds an entry, where it is an access.
    #[inline]
    fn take(&mut self, what: &What) -> Result<(), NoMemory>
        requires { IsFewWith (2 ^ 63) self.old.tally self.old.streak }
        ensures groups { OnOk result ((gid : ℕ) → at_with self.new.tally self.new.streak gid ≡ counted (is_access_of gid) (at_with self.old.tally self.old.streak gid) what.now) }
        ensures all { OnOk result (all_with self.new.tally self.new.streak ≡ counted is_access (all_with self.old.tally self.old.streak) what.now) }
    {
        match what {
            What::Access {
                owner,
                hit: true,
                ..
            } => self.add_hit(owner.0),
            What::Access { owner, .. } => self.add_miss(owner.0),
            _ => Ok(()),
        }
    }

    /// Adds the accesses among these entries.
    pub(crate) fn take_all(&mut self, entries: &[SliceEntry]) -> Result<(), NoMemory>
        requires { IsFewWith (2 ^ 63 - length entries.now) self.old.tally self.old.streak }
        ensures groups { OnOk result ((gid : ℕ) → at_with self.new.tally self.new.streak gid ≡ counted_all (is_access_of gid) (at_with self.old.tally self.old.streak gid) entries.now) }
        ensures all { OnOk result (all_with self.new.tally self.new.streak ≡ counted_all is_access (all_with self.old.tally self.old.streak) entries.now) }
    {
        for entry in entries {
            self.take(&entry.what)?;
        }
        Ok(())
    }

    /// The tally with all that was added.
    pub(crate) fn finish(self) -> Result<Tally, NoMemory>
        requires { IsFewWith (2 ^ 63) self.tally self.streak }
        ensures groups { IfOk result (λ t. (gid : ℕ) → at t gid ≡ at_with self.tally self.streak gid) }
        ensures all { IfOk result (λ t. t.all ≡ all_with self.tally self.streak) }
    {
        let RunningTally { mut tally, streak } = self;
        tally.add(streak.gid(), streak.counts())?;
        Ok(tally)
    }
}
