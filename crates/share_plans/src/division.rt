//! The best division.
ghost use Rattle.std.specs.Prelude.{◌≡◌, ℕ, ◌≤◌, All, IfOk, IfSome, List, None, length};
ghost use Rattle.share_plans.specs.Divisions.{IsBestDivision, IsDivision};
ghost use Rattle.share_plans.specs.Rows.{IsSmall};
ghost use Rattle.share_plans.specs.declared.division_limits.TheConstants.{MOST_PROGRAMS, MOST_WAYS};

use crate::demand::Demand;
use crate::goal::Goal;
use crate::table::{push_counts, rows_of};
use rc_base::NoMemory;
use std::alloc::Global;

/// How so many ways of a cache are best divided among programs: a number of ways for each. None where no division is: the ways do not
/// suffice for the least of each. Of several best divisions it takes the one whose first program has the fewest ways, and then the same
/// of the second, and so on; no clause says that (this project's profile).
///
/// NoMemory where the allocator gives no room for a row for each program and for the ways.
pub fn divide(
    alloc: Global,
    goal: Goal,
    demands: &[Demand],
    ways: u8,
) -> Result<Option<Vec<u8>>, NoMemory>
    requires ways { ways ≤ MOST_WAYS }
    requires few { length demands.now ≤ MOST_PROGRAMS }
    requires small { All IsSmall demands.now }
    ensures best { IfOk result (λ found. IfSome found (λ counts. IsBestDivision goal ways demands.now counts.items)) }
    ensures none { IfOk result (λ found. found ≡ None → (counts : List ℕ) → IsDivision ways demands.now counts → ⊥) }
{
    let rows = rows_of(alloc, goal, demands)?;
    if rows[0][ways as usize].is_none() {
        return Ok(None);
    }
    let mut counts = Vec::new(alloc);
    push_counts(demands, &rows, ways, &mut counts)?;
    Ok(Some(counts))
}
