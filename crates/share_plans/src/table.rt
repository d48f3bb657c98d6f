//! The table: a row for each program, and the ways that it tells.
ghost use Rattle.std.specs.Prelude.{◌≡◌, ◌≤◌, ◌++◌, All, IfOk, OnOk, length};
ghost use Rattle.share_plans.specs.Rows.{AreRows, IsSmall, counts_from};

use crate::choice::Choice;
use crate::demand::Demand;
use crate::division_limits::MOST_WAYS;
use crate::goal::Goal;
use crate::row::{Row, row_of};
use crate::score::Score;
use rc_base::NoMemory;
use std::alloc::Global;

// No program gets no ways.
const NOTHING: Choice = Choice {
    count: 0,
    score: Score { part: 0, whole: 1 },
};

/// The rows of some programs, that of all in front, and that of none at the end.
pub(crate) fn rows_of(alloc: Global, goal: Goal, demands: &[Demand]) -> Result<Vec<Row>, NoMemory>
    requires few { length demands.now ≤ 32 }
    requires small { All IsSmall demands.now }
    ensures { IfOk result (λ rows. AreRows goal demands.now rows.items) }
{
    let mut rows = Vec::with_capacity(alloc, demands.len() + 1)?;
    rows.push([Some(NOTHING); MOST_WAYS + 1])?;
    let mut first = demands.len();
    while first > 0 {
        first -= 1;
        let after = (demands.len() - first - 1) as u8;
        let row = row_of(goal, &demands[first], &rows[0], after);
        rows.insert(0, row)?;
    }
    Ok(rows)
}

/// Adds the ways that the rows tell for each program, out of so many.
pub(crate) fn push_counts(
    demands: &[Demand],
    rows: &[Row],
    ways: u8,
    counts: &mut Vec<u8>,
) -> Result<(), NoMemory>
    requires { ways ≤ 32 }
    ensures { OnOk result (counts.new.items ≡ counts.old.items ++ counts_from demands.now rows.now ways) }
{
    let [_, later @ ..] = demands else {
        return Ok(());
    };
    let [row, next @ ..] = rows else {
        return Ok(());
    };
    let Some(choice) = row[ways as usize] else {
        return Ok(());
    };
    counts.push(choice.count)?;
    push_counts(later, next, ways.saturating_sub(choice.count), counts)
}
