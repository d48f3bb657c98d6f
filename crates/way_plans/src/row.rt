//! A row of the table.
ghost use Rattle.std.specs.Prelude.{◌≡◌, ℕ, ◌+◌, ◌-◌, ◌^◌, ◌<◌, ◌≤◌, All, IfSome, Some, false, get_or, length};
ghost use Rattle.way_plans.specs.Divisions.{AreFree, IsSpan};
ghost use Rattle.way_plans.specs.Rows.{IsBestFrom, IsNoBetter, at, choice_of};
ghost use Rattle.way_plans.specs.declared.span.Span.{Span};

use crate::choice::{Choice, better};
use crate::division_limits::MOST_WAYS;
use crate::span::Span;

/// What is best for the groups from one on, from each way on, and from behind the last.
pub(crate) type Row = [Option<Choice>; MOST_WAYS + 1];

// The choice of a span.
fn choice_of(group: &[u64], next: &Row, span: Span) -> Option<Choice>
    requires behind { span.first + span.count ≤ 32 }
    requires own { All (λ n. n ≤ 2 ^ 48) group.now }
    requires next { (way : ℕ) → IfSome (at next.now way) (λ choice. choice.misses ≤ 2 ^ 60) }
    requires count { length group.now ≡ 33 }
    ensures { result ≡ choice_of group.now next.now span }
{
    let rest = next[(span.first + span.count) as usize]?;
    Some(Choice {
        span,
        misses: group[span.count as usize] + rest.misses,
    })
}

// The first way from one on that is not free, or behind the last.
fn end_of_run(free: &[bool], first: u8) -> u8
    requires ways { length free.now ≤ 32 }
    requires first { first ≤ length free.now }
    ensures above { first ≤ result }
    ensures within { result ≤ length free.now }
    ensures free { AreFree free.now first (result - first) }
    ensures stops { get_or free.now result false ≡ false }
{
    let mut way = first;
    while (way as usize) < free.len() && free[way as usize] {
        way += 1;
    }
    way
}

// The best choice of a span that begins at a way.
fn best_at(free: &[bool], least: u8, group: &[u64], next: &Row, first: u8) -> Option<Choice>
    requires least { 1 ≤ least }
    requires ways { length free.now ≤ 32 }
    requires first { first < length free.now }
    requires own { All (λ n. n ≤ 2 ^ 48) group.now }
    requires next { (way : ℕ) → IfSome (at next.now way) (λ choice. choice.misses ≤ 2 ^ 60) }
    requires count { length group.now ≡ 33 }
    ensures chosen { IfSome result (λ choice. (IsSpan free.now least first choice.span) × (choice_of group.now next.now choice.span ≡ Some choice)) }
    ensures others { (span : Span) → IsSpan free.now least first span → span.first ≡ first → IsNoBetter (choice_of group.now next.now span) result }
{
    let most = end_of_run(free, first) - first;
    let mut best = None;
    for count in least..most + 1 {
        best = better(best, choice_of(group, next, Span { first, count }));
    }
    best
}

/// The row of a group, by the row of those after it.
pub(crate) fn row_of(free: &[bool], least: u8, group: &[u64], next: &Row) -> Row
    requires least { 1 ≤ least }
    requires ways { length free.now ≤ 32 }
    requires own { All (λ n. n ≤ 2 ^ 48) group.now }
    requires next { (way : ℕ) → IfSome (at next.now way) (λ choice. choice.misses ≤ 2 ^ 60) }
    requires count { length group.now ≡ 33 }
    ensures { (way : ℕ) → IsBestFrom free.now least group.now next.now way (at result way) }
{
    let mut row: Row = [None; MOST_WAYS + 1];
    let mut way = free.len() as u8;
    while way > 0 {
        way -= 1;
        let here = best_at(free, least, group, next, way);
        row[way as usize] = better(here, row[way as usize + 1]);
    }
    row
}
