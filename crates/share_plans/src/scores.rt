//! Scores of programs.
ghost use Rattle.std.specs.Prelude.{◌≡◌, ◌+◌, ◌^◌, ◌<◌, ◌≤◌};
ghost use Rattle.share_plans.specs.Rows.{IsFit, IsSmall};
ghost use Rattle.share_plans.specs.Scores.{is_less as is_less_in, joined as joined_in, score_one as score_in, whole_of as whole_in};
ghost use Rattle.share_plans.specs.declared.goal.Goal.TheVariants.{Ratio};
ghost use Rattle.share_plans.specs.declared.division_limits.TheConstants.{MOST_USES};

use crate::demand::Demand;
use crate::goal::Goal;
use crate::score::Score;

/// Whether a score is less than another.
pub(crate) fn is_less(a: Score, b: Score) -> bool
    ensures { result ≡ is_less_in a b }
{
    u128::from(a.part) * u128::from(b.whole) < u128::from(b.part) * u128::from(a.whole)
}

// So many uses, and 1 where there are none.
fn whole_of(uses: u64) -> u64
    ensures { result ≡ whole_in uses }
{
    if uses == 0 { 1 } else { uses }
}

/// What so many misses of a program count.
pub(crate) fn score_one(goal: Goal, demand: &Demand, misses: u64) -> Score
    requires small { IsSmall demand.now }
    requires few { misses ≤ MOST_USES }
    ensures score { result ≡ score_in goal demand.now misses }
    ensures fit { IsFit goal 1 result }
{
    let part = u64::from(demand.weight) * misses;
    match goal {
        Goal::Misses => Score { part, whole: 1 },
        Goal::Ratio => Score {
            part,
            whole: whole_of(demand.misses[0]),
        },
    }
}

// The greater of two.
fn worse(a: Score, b: Score) -> Score
    ensures { result ≡ joined_in Ratio a b }
{
    if is_less(a, b) { b } else { a }
}

/// What two count together.
pub(crate) fn joined(goal: Goal, a: Score, b: Score) -> Score
    requires room { a.part + b.part < 2 ^ 64 }
    ensures { result ≡ joined_in goal a b }
{
    match goal {
        Goal::Misses => Score {
            part: a.part + b.part,
            whole: 1,
        },
        Goal::Ratio => worse(a, b),
    }
}
