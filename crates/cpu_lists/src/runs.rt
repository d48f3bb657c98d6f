//! Runs of adjacent CPU numbers.
ghost use Rattle.std.specs.Prelude.{◌≡◌, ℕ, ◌+◌, not, ◌≤◌, ◌<◌, [], ◌∷◌, ◌==◌, true, false, MatchOption, filter};
ghost use Rattle.cpu_lists.specs.Sets.{has as has_number};
ghost use Rattle.cpu_lists.specs.Printed.{runs_of};

/// The CPU numbers from the first to the last, both of them too.
#[derive(Clone, Copy, Debug, PartialEq, Eq)]
pub struct Run {
    pub first: u64,
    pub last: u64,
}

// The least number of a set; 64 where it has none.
fn lowest(set: u64) -> u32
    ensures limit { result ≤ 64 }
    ensures found { result < 64 → has_number set result ≡ true }
    ensures passed { (k : ℕ) → k < result → has_number set k ≡ false }
{
    set.trailing_zeros()
}

// The numbers of a set from here on.
fn rest(set: u64, from: u32) -> u64
    requires { from < 64 }
    ensures below { (k : ℕ) → k < from → has_number result k ≡ false }
    ensures above { (k : ℕ) → from ≤ k → k < 64 → has_number result k ≡ has_number set k }
{
    set & (u64::MAX << from)
}

// The numbers below 64 that a set has, or has not, as is wanted.
fn chosen(set: u64, wanted: bool) -> u64
    ensures chosen { (k : ℕ) → k < 64 → has_number result k ≡ true → has_number set k ≡ wanted }
    ensures others { (k : ℕ) → k < 64 → has_number result k ≡ false → has_number set k ≡ not wanted }
{
    if wanted { set } else { !set }
}

/// The least number from here on that a set has, or has not, as is wanted; 64 where there is
/// none.
pub fn next(set: u64, from: u32, wanted: bool) -> u32
    requires { from ≤ 64 }
    ensures low { from ≤ result }
    ensures high { result ≤ 64 }
    ensures found { result < 64 → has_number set result ≡ wanted }
    ensures passed { (k : ℕ) → from ≤ k → k < result → has_number set k ≡ not wanted }
{
    if from == 64 {
        return 64;
    }
    lowest(rest(chosen(set, wanted), from))
}
