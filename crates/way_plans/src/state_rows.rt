//! The table of all orders: a row for each group, and the spans that it tells.
ghost use Rattle.std.specs.Prelude.{◌≡◌, ℕ, ◌^◌, ◌≤◌, ◌++◌, All, IfOk, OnOk, length};
ghost use Rattle.way_plans.specs.Divisions.{end};
ghost use Rattle.way_plans.specs.Placings.{AreStateRows, spans_at};
ghost use Rattle.way_plans.specs.Runs.{states_of};
ghost use Rattle.way_plans.specs.declared.division_limits.TheConstants.{MOST_STATES};

use crate::division_limits::MOST_WAYS;
use crate::span::Span;
use crate::state_row::{StateRow, last_row, row_of};
use rc_base::NoMemory;
use std::alloc::Global;

/// The rows of some groups, that of all in front, and that of none at the end.
pub(crate) fn rows_of(
    alloc: Global,
    least: u8,
    groups: &[[u64; MOST_WAYS + 1]],
    runs: &[Span],
    states: usize,
) -> Result<Vec<StateRow>, NoMemory>
    requires least { 1 ≤ least }
    requires runs { All (λ run. end run ≤ 32) runs.now }
    requires states { states ≡ states_of runs.now }
    requires few_states { states ≤ MOST_STATES }
    requires few { length groups.now ≤ 64 }
    requires counts { All (All (λ n. n ≤ 2 ^ 48)) groups.now }
    ensures { IfOk result (λ rows. AreStateRows least runs.now groups.now rows.items) }
{
    let mut rows: Vec<StateRow> = Vec::with_capacity(alloc, groups.len() + 1)?;
    rows.push(last_row(alloc, states)?)?;
    let mut first = groups.len();
    while first > 0 {
        first -= 1;
        let row = row_of(alloc, least, &groups[first], &rows[0], runs)?;
        rows.insert(0, row)?;
    }
    Ok(rows)
}

/// Adds the spans that the rows tell, from a state on.
pub(crate) fn push_spans(
    groups: &[[u64; MOST_WAYS + 1]],
    rows: &[StateRow],
    state: usize,
    spans: &mut Vec<Span>,
) -> Result<(), NoMemory>
    ensures { OnOk result (spans.new.items ≡ spans.old.items ++ spans_at groups.now rows.now state) }
{
    match (groups, rows) {
        ([_, later @ ..], [row, next @ ..]) => {
            let Some(placed) = row.best(state) else {
                return Ok(());
            };
            spans.push(placed.span)?;
            push_spans(later, next, placed.rest, spans)
        }
        _ => Ok(()),
    }
}
