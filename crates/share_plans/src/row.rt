//! A row of the table.
ghost use Rattle.std.specs.Prelude.{◌≡◌, ℕ, ◌+◌, ◌<◌, ◌≤◌, IfSome};
ghost use Rattle.share_plans.specs.Rows.{AreFit, IsBestFor, IsChosen, IsFit, IsNoBetter, IsSmall, at, choice_of as choice_in};

use crate::choice::{Choice, better};
use crate::demand::Demand;
use crate::division_limits::MOST_WAYS;
use crate::goal::Goal;
use crate::scores::{joined, score_one};

/// What is best for the programs from one on, with each number of ways for them.
pub(crate) type Row = [Option<Choice>; MOST_WAYS + 1];

// The programs after one.
#[derive(Drop)]
struct Later<'a> {
    // How many they are.
    programs: u8,
    // Their row.
    row: &'a Row,
}

// The choice of so many ways for a program, out of so many for it and those after it.
fn choice_of(goal: Goal, demand: &Demand, later: &Later<'_>, ways: u8, count: u8) -> Option<Choice>
    requires ways { ways ≤ 32 }
    requires count { count ≤ ways }
    requires few { later.now.programs ≤ 31 }
    requires small { IsSmall demand.now }
    requires later { AreFit goal later.now.programs later.now.row.now }
    ensures choice { result ≡ choice_in goal demand.now later.now.row.now ways count }
    ensures fit { IfSome result (λ choice. IsFit goal (later.now.programs + 1) choice.score) }
{
    let rest = later.row[(ways - count) as usize]?;
    let own = score_one(goal, demand, demand.misses[count as usize]);
    Some(Choice {
        count,
        score: joined(goal, own, rest.score),
    })
}

// The best choice for a program, out of so many ways for it and those after it.
fn best_of(goal: Goal, demand: &Demand, later: &Later<'_>, ways: u8) -> Option<Choice>
    requires ways { ways ≤ 32 }
    requires few { later.now.programs ≤ 31 }
    requires small { IsSmall demand.now }
    requires later { AreFit goal later.now.programs later.now.row.now }
    ensures best { IsBestFor goal demand.now later.now.row.now ways result }
    ensures fit { IfSome result (λ choice. IsFit goal (later.now.programs + 1) choice.score) }
{
    let mut best = None;
    for count in demand.least..ways + 1 {
        best = better(best, choice_of(goal, demand, later, ways, count));
    }
    best
}

/// The row of a program, by the row of those after it, of which there are so many.
pub(crate) fn row_of(goal: Goal, demand: &Demand, next: &Row, after: u8) -> Row
    requires after { after ≤ 31 }
    requires small { IsSmall demand.now }
    requires next { AreFit goal after next.now }
    ensures best { (ways : ℕ) → ways ≤ 32 → IsBestFor goal demand.now next.now ways (at result ways) }
    ensures fit { AreFit goal (after + 1) result }
{
    let later = Later {
        programs: after,
        row: next,
    };
    let mut row: Row = [None; MOST_WAYS + 1];
    for ways in 0..MOST_WAYS + 1 {
        row[ways] = best_of(goal, demand, &later, ways as u8);
    }
    row
}
