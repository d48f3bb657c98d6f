//! Counts of accesses, hits and misses.
ghost use Rattle.std.specs.Prelude.{◌≡◌, ◌^◌};
ghost use Rattle.run_counts.specs.Tallies.{AreAtMost, added};

/// How many accesses, hits and misses there were.
#[derive(Clone, Copy, Debug, PartialEq, Eq)]
pub struct Counts {
    /// Hits and misses together.
    pub accesses: u64,
    /// Accesses that found their line.
    pub hits: u64,
    /// Accesses that did not, and filled it.
    pub misses: u64,
}

impl Counts {
    /// No access.
    pub const NOTHING: Counts = Counts {
        accesses: 0,
        hits: 0,
        misses: 0,
    };

    /// These and others together.
    pub(crate) fn added(self, other: Counts) -> Counts
        requires { AreAtMost (2 ^ 63) (added self other) }
        ensures { result ≡ added self other }
    {
        Counts {
            accesses: self.accesses + other.accesses,
            hits: self.hits + other.hits,
            misses: self.misses + other.misses,
        }
    }
}
