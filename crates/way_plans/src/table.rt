//! The table: a row for each group, and the spans that it tells.
ghost use Rattle.std.specs.Prelude.{◌≡◌, ℕ, ◌^◌, ◌≤◌, ◌++◌, All, IfOk, OnOk, length};
ghost use Rattle.way_plans.specs.Rows.{AreRows, AreWithin, spans_from};

use crate::choice::Choice;
use crate::division_limits::MOST_WAYS;
use crate::row::{Row, row_of};
use crate::span::Span;
use rc_base::NoMemory;
use std::alloc::Global;

// No group has no misses.
const NOTHING: Choice = Choice {
    span: Span { first: 0, count: 0 },
    misses: 0,
};

/// The rows of some groups, that of all in front, and that of none at the end.
pub(crate) fn rows_of(
    alloc: Global,
    free: &[bool],
    least: u8,
    groups: &[[u64; MOST_WAYS + 1]],
) -> Result<Vec<Row>, NoMemory>
    requires least { 1 ≤ least }
    requires ways { length free.now ≤ 32 }
    requires few { length groups.now ≤ 64 }
    requires counts { All (All (λ n. n ≤ 2 ^ 48)) groups.now }
    ensures { IfOk result (λ rows. AreRows free.now least groups.now rows.items) }
{
    let mut rows = Vec::with_capacity(alloc, groups.len() + 1)?;
    rows.push([Some(NOTHING); MOST_WAYS + 1])?;
    let mut first = groups.len();
    while first > 0 {
        first -= 1;
        let row = row_of(free, least, &groups[first], &rows[0]);
        rows.insert(0, row)?;
    }
    Ok(rows)
}

/// Adds the spans that the rows tell, from a way on.
pub(crate) fn push_spans(
    groups: &[[u64; MOST_WAYS + 1]],
    rows: &[Row],
    from: u8,
    spans: &mut Vec<Span>,
) -> Result<(), NoMemory>
    requires from { from ≤ 32 }
    requires within { AreWithin rows.now }
    ensures { OnOk result (spans.new.items ≡ spans.old.items ++ spans_from groups.now rows.now from) }
{
    match (groups, rows) {
        ([_, later @ ..], [row, next @ ..]) => {
            let Some(choice) = row[from as usize] else {
                return Ok(());
            };
            spans.push(choice.span)?;
            push_spans(later, next, choice.span.first + choice.span.count, spans)
        }
        _ => Ok(()),
    }
}
