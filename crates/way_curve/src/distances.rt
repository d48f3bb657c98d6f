//! How many uses came at each distance.
ghost use Rattle.std.specs.Prelude.{◌≡◌, ℕ, ◌+◌, ◌-◌, ◌*◌, ◌^◌, ◌<◌, ◌≤◌, length, nat_lt, sum, take, IfSome};
ghost use Rattle.lists.specs.Sums.{one_if};
ghost use Rattle.way_curve.specs.Distances.{is_below, uses_of_run};

/// One more use at a distance; none where it has no distance.
#[inline(always)]
pub fn count(uses: &mut [u64], distance: Option<usize>)
    requires within { IfSome distance (λ d. d < length uses.old) }
    requires room { sum uses.old < 2 ^ 64 - 1 }
    ensures { (most : ℕ) → most ≤ length uses.old → sum (take most uses.new) ≡ sum (take most uses.old) + one_if (is_below most distance) }
{
    if let Some(distance) = distance {
        uses[distance] += 1;
    }
}

/// The uses of a run of so many lines, one after the other, that were all used just before, in caches of so many sets: each comes at the
/// distance of the other lines of the run in its set.
pub fn count_run(uses: &mut [u64], sets: u64, lines: u64)
    requires some { 0 < sets }
    requires room { sum uses.old + lines < 2 ^ 64 }
    ensures total { sum uses.new ≤ sum uses.old + lines }
    ensures counted { (most : ℕ) → most ≤ length uses.old → sum (take most uses.new) ≡ sum (take most uses.old) + uses_of_run sets lines most }
{
    let rows = lines / sets;
    let rest = lines % sets;
    add(uses, rows, rest * rows + rest);
    if rows > 0 {
        add(uses, rows - 1, (sets - rest) * rows);
    }
}

// So many uses more at a distance; none that is counted where the distance is too great.
fn add(uses: &mut [u64], distance: u64, more: u64)
    requires room { sum uses.old + more < 2 ^ 64 }
    ensures total { sum uses.new ≤ sum uses.old + more }
    ensures counted { (most : ℕ) → most ≤ length uses.old → sum (take most uses.new) ≡ sum (take most uses.old) + more * one_if (nat_lt distance most) }
{
    if distance < uses.len() as u64 {
        uses[distance as usize] += more;
    }
}

/// How many uses these are together.
pub fn total(uses: &[u64]) -> u64
    requires { sum uses.now < 2 ^ 64 }
    ensures { result ≡ sum uses.now }
{
    uses.iter().sum()
}
