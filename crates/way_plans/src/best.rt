//! The best division, in every order where all can be tried.
ghost use Rattle.std.specs.Prelude.{◌≡◌, ◌≤◌, ◌^◌, ℕ, All, Bool, IfOk, IfSome, List, None, length, option_map};
ghost use Rattle.way_plans.specs.AnyOrder.{IsBestInAnyOrder};
ghost use Rattle.way_plans.specs.Divisions.{IsBestDivision};
ghost use Rattle.way_plans.specs.Orders.{IsBestIfAnyIn, order_of};
ghost use Rattle.way_plans.specs.Values.{spans_of};
ghost use Rattle.way_plans.specs.declared.division_limits.TheConstants.{MOST_GROUPS, MOST_MISSES, MOST_WAYS};

use crate::any_order::{divide_in_any_order, has_few_states};
use crate::division::divide;
use crate::division_limits::MOST_WAYS;
use crate::divisions::misses_of;
use crate::order::Order;
use crate::span::Span;
use rc_base::NoMemory;
use std::alloc::Global;

/// How the ways of a cache are divided.
#[derive(Drop)]
pub struct Division {
    /// The ways that each group gets, in order of the groups, and None where the ways do not suffice.
    pub spans: Option<Vec<Span>>,
    /// In which orders the groups lie in the divisions among which this one is the best.
    pub order: Order,
}

// The one of two divisions that has fewer misses: the first where they have as many, and the second where one is none.
fn fewer_of(
    groups: &[[u64; MOST_WAYS + 1]],
    in_order: Option<Vec<Span>>,
    any: Option<Vec<Span>>,
) -> Option<Vec<Span>>
    requires few { length groups.now ≤ 64 }
    requires counts { All (All (λ n. n ≤ 2 ^ 48)) groups.now }
    ensures best { (free : List Bool) (least : ℕ) → 1 ≤ least
        → IfSome in_order (λ spans. IsBestDivision free least groups.now spans.items)
        → IfSome any (λ spans. IsBestInAnyOrder free least groups.now spans.items)
        → IfSome result (λ spans. IsBestInAnyOrder free least groups.now spans.items) }
    ensures none { result ≡ None → any ≡ None }
{
    match (in_order, any) {
        (Some(first), Some(second)) => {
            if misses_of(groups, &second) < misses_of(groups, &first) {
                Some(second)
            } else {
                Some(first)
            }
        }
        (_, any) => any,
    }
}

/// The best division of the ways of a cache among groups: in whatever order the groups lie, where the runs of free ways have few states,
/// and else in order from way 0 up. Where a division in order is as good as any, it is that one. `groups`, `free` and `least` are those
/// of `divide`. NoMemory where the allocator gives no room for a table of up to 34 MB.
pub fn best_division(
    alloc: Global,
    groups: &[[u64; MOST_WAYS + 1]],
    free: &[bool],
    least: u8,
) -> Result<Division, NoMemory>
    requires least { 1 ≤ least }
    requires ways { length free.now ≤ MOST_WAYS }
    requires few { length groups.now ≤ MOST_GROUPS }
    requires counts { All (All (λ n. n ≤ MOST_MISSES)) groups.now }
    ensures order { IfOk result (λ division. division.order ≡ order_of free.now) }
    ensures best { IfOk result (λ division. IsBestIfAnyIn (order_of free.now) free.now least groups.now (option_map spans_of division.spans)) }
{
    let in_order = divide(alloc, groups, free, least)?;
    if !has_few_states(alloc, free)? {
        return Ok(Division {
            spans: in_order,
            order: Order::Creation,
        });
    }
    let any = divide_in_any_order(alloc, groups, free, least)?;
    Ok(Division {
        spans: fewer_of(groups, in_order, any),
        order: Order::Any,
    })
}
