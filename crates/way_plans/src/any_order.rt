//! The best division in any order.
ghost use Rattle.std.specs.Prelude.{◌≡◌, ◌≤◌, All, IfOk, IfSome, IsTrue, ◌↔◌, List, None, length};
ghost use Rattle.way_plans.specs.AnyOrder.{IsBestInAnyOrder, IsDivisionInAnyOrder};
ghost use Rattle.way_plans.specs.Runs.{runs_of as runs_in, states_of as states_in};
ghost use Rattle.way_plans.specs.declared.division_limits.TheConstants.{MOST_GROUPS, MOST_MISSES, MOST_STATES, MOST_WAYS};
ghost use Rattle.way_plans.specs.declared.span.Span.{Span};

use crate::division_limits::{MOST_STATES, MOST_WAYS};
use crate::runs::{runs_of, states_of};
use crate::span::Span;
use crate::state_rows::{push_spans, rows_of};
use rc_base::NoMemory;
use std::alloc::Global;

/// Whether all orders of groups can be tried with these free ways, 32 at most. NoMemory where the allocator gives no room for a list of
/// their runs.
pub fn has_few_states(alloc: Global, free: &[bool]) -> Result<bool, NoMemory>
    requires ways { length free.now ≤ MOST_WAYS }
    ensures { IfOk result (λ few. IsTrue few ↔ (states_in (runs_in free.now) ≤ MOST_STATES)) }
{
    let runs = runs_of(alloc, free)?;
    Ok(states_of(&runs) <= MOST_STATES)
}

/// How the ways of a cache are divided among groups so that all have the fewest misses together, in whatever order the groups lie: a
/// span for each, in order of the groups. None where no division is: the ways do not suffice. Which of several best divisions it is, no
/// clause says.
///
/// `groups`, `free` and `least` are those of `divide`; all orders of groups can be tried with these free ways. NoMemory where the
/// allocator gives no room for a table of up to 34 MB.
pub fn divide_in_any_order(
    alloc: Global,
    groups: &[[u64; MOST_WAYS + 1]],
    free: &[bool],
    least: u8,
) -> Result<Option<Vec<Span>>, NoMemory>
    requires least { 1 ≤ least }
    requires ways { length free.now ≤ MOST_WAYS }
    requires few { length groups.now ≤ MOST_GROUPS }
    requires counts { All (All (λ n. n ≤ MOST_MISSES)) groups.now }
    requires states { states_in (runs_in free.now) ≤ MOST_STATES }
    ensures best { IfOk result (λ found. IfSome found (λ spans. IsBestInAnyOrder free.now least groups.now spans.items)) }
    ensures none { IfOk result (λ found. found ≡ None → (spans : List Span) → IsDivisionInAnyOrder free.now least groups.now spans → ⊥) }
{
    let runs = runs_of(alloc, free)?;
    let states = states_of(&runs);
    let rows = rows_of(alloc, least, groups, &runs, states)?;
    let last = states - 1;
    if rows[0].best(last).is_none() {
        return Ok(None);
    }
    let mut spans = Vec::new(alloc);
    push_spans(groups, &rows, last, &mut spans)?;
    Ok(Some(spans))
}
