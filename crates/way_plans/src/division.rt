//! The best division.
ghost use Rattle.std.specs.Prelude.{◌≡◌, ℕ, ◌≤◌, All, IfOk, IfSome, List, None, length};
ghost use Rattle.way_plans.specs.Divisions.{IsBestDivision, IsDivision};
ghost use Rattle.way_plans.specs.declared.division_limits.TheConstants.{MOST_GROUPS, MOST_MISSES, MOST_WAYS};
ghost use Rattle.way_plans.specs.declared.span.Span.{Span};

use crate::division_limits::MOST_WAYS;
use crate::span::Span;
use crate::table::{push_spans, rows_of};
use rc_base::NoMemory;
use std::alloc::Global;

/// How the ways of a cache are divided among groups so that all have the fewest misses together: a span for each, in order from
/// way 0 up. None where no division is: the ways do not suffice. Of several best divisions it takes the one whose first group
/// begins lowest, of these the one where it has the fewest ways, and then the same of the second group, and so on; no clause says
/// that.
///
/// `groups` has for each group its misses with each number of ways from 0 to 32; at most `MOST_GROUPS` groups, with at most
/// `MOST_MISSES` misses each. `free` says of each way, `MOST_WAYS` at most, whether it may be given to a group. Each group gets `least` ways or more (this
/// project's profile). NoMemory where the allocator gives no room for a row for each group and for the spans.
pub fn divide(
    alloc: Global,
    groups: &[[u64; MOST_WAYS + 1]],
    free: &[bool],
    least: u8,
) -> Result<Option<Vec<Span>>, NoMemory>
    requires least { 1 ≤ least }
    requires ways { length free.now ≤ MOST_WAYS }
    requires few { length groups.now ≤ MOST_GROUPS }
    requires counts { All (All (λ n. n ≤ MOST_MISSES)) groups.now }
    ensures best { IfOk result (λ found. IfSome found (λ spans. IsBestDivision free.now least groups.now spans.items)) }
    ensures none { IfOk result (λ found. found ≡ None → (spans : List Span) → IsDivision free.now least 0 groups.now spans → ⊥) }
{
    let rows = rows_of(alloc, free, least, groups)?;
    if rows[0][0].is_none() {
        return Ok(None);
    }
    let mut spans = Vec::new(alloc);
    push_spans(groups, &rows, 0, &mut spans)?;
    Ok(Some(spans))
}
