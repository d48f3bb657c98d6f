//! What came of an access.
ghost use Rattle.std.specs.Prelude.{◌≡◌, MatchOption};
ghost use Rattle.cache_core.specs.Stands.{IsStale, touched_as};

/// What came of an access.
#[derive(Clone, Copy, Debug, PartialEq, Eq)]
pub enum Touched {
    /// This way held the line.
    Hit { way: u8 },
    /// No way held the line, and it was filled into this way.
    Filled { way: u8 },
    /// The tag's epoch is below the floor, which is given. Nothing changed, and the access needs a new tag.
    Stale { floor: u64 },
}

impl Touched {
    /// Whether the access hit, and the way that holds its line now. None where its tag was stale.
    #[inline(always)]
    pub fn hit_and_way(self) -> Option<(bool, u8)>
        ensures { MatchOption result (IsStale self) (λ p. self ≡ touched_as p.0 p.1) }
    {
        match self {
            Touched::Hit { way } => Some((true, way)),
            Touched::Filled { way } => Some((false, way)),
            Touched::Stale { .. } => None,
        }
    }
}
