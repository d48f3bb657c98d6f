//! Clauses in their order.
ghost use Rattle.std.specs.Prelude.{◌≡◌};
ghost use Rattle.check_parts.specs.JudgedSlices.{earlier_of, found_in};
ghost use Rattle.journal_check.specs.Verdicts.{rank};

use journal_check::{Clause, Verdict};

// The place of a clause in their order.
fn rank(clause: Clause) -> u8
    ensures { result ≡ rank clause }
{
    match clause {
        Clause::CommandsStandOnce => 0,
        Clause::TreeIsLegal => 1,
        Clause::SlicesAreLegal => 2,
        Clause::AccessesAreTrue => 3,
        Clause::OthersAreTrue => 4,
        Clause::StandAfterCommands => 5,
        Clause::LooksAreMatched => 6,
        Clause::EntriesStandOnce => 7,
        Clause::MarksInOrder => 8,
        Clause::EntriesInOrder => 9,
    }
}

/// The clause of a verdict, where it is one before that of the looks.
pub(crate) fn found_in(verdict: Verdict) -> Option<Clause>
    ensures { result ≡ found_in verdict }
{
    match verdict {
        Verdict::Yes => None,
        Verdict::No { clause } => {
            if rank(clause) < rank(Clause::LooksAreMatched) {
                Some(clause)
            } else {
                None
            }
        }
    }
}

/// The earlier of two clauses, where there are any.
pub(crate) fn earlier_of(clause: Option<Clause>, other: Option<Clause>) -> Option<Clause>
    ensures { result ≡ earlier_of clause other }
{
    let Some(first) = clause else {
        return other;
    };
    let Some(second) = other else {
        return clause;
    };
    if rank(first) < rank(second) {
        clause
    } else {
        other
    }
}
