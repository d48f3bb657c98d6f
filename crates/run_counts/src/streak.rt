//! Consecutive accesses of one group.
ghost use Rattle.std.specs.Prelude.{◌≡◌, ◌^◌, false, true};
ghost use Rattle.run_counts.specs.Tallies.{AreAtMost, nothing, with_access};

use crate::counts::Counts;
use std::marker::Model;

/// Consecutive accesses of one group.
#[derive(Drop)]
pub(crate) struct Streak {
    gid: u32,
    hits: u64,
    misses: u64,
}

impl Model for Streak {
    ghost use Rattle.std.specs.Prelude.{◌+◌};
    ghost use Rattle.run_counts.specs.Tallies.{StreakValue};

    ghost Value = { StreakValue };

    ghost view = { λ s. record { gid = s.gid; counts = record { accesses = s.hits + s.misses; hits = s.hits; misses = s.misses } } };
}

impl Streak {
    /// No access of a group yet.
    pub(crate) fn of(gid: u32) -> Streak
        ensures gid { result.gid ≡ gid }
        ensures counts { result.counts ≡ nothing }
    {
        Streak {
            gid,
            hits: 0,
            misses: 0,
        }
    }

    /// The gid of the group.
    #[inline]
    pub(crate) fn gid(&self) -> u32
        ensures { result ≡ self.now.gid }
    {
        self.gid
    }

    /// How many there were.
    pub(crate) fn counts(&self) -> Counts
        requires { AreAtMost (2 ^ 63) self.now.counts }
        ensures { result ≡ self.now.counts }
    {
        Counts {
            accesses: self.hits + self.misses,
            hits: self.hits,
            misses: self.misses,
        }
    }

    /// Adds an access that hit.
    #[inline]
    pub(crate) fn add_hit(&mut self)
        requires { AreAtMost (2 ^ 63) self.old.counts }
        ensures gid { self.new.gid ≡ self.old.gid }
        ensures counts { self.new.counts ≡ with_access true self.old.counts }
    {
        self.hits += 1;
    }

    /// Adds an access that missed.
    #[inline]
    pub(crate) fn add_miss(&mut self)
        requires { AreAtMost (2 ^ 63) self.old.counts }
        ensures gid { self.new.gid ≡ self.old.gid }
        ensures counts { self.new.counts ≡ with_access false self.old.counts }
    {
        self.misses += 1;
    }
}
