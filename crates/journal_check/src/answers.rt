//! The check of journals: its ten clauses one after the other, until one is false.
ghost use Rattle.std.specs.Prelude.{◌≡◌, IfOk, MatchOption, length};
ghost use Rattle.journal_check.specs.Verdicts.{IsFirstFalse, IsVerdict};
ghost use Rattle.machine.specs.Slices.{slice_count};
ghost use Rattle.run_law.specs.Clauses.{MeetsClauses};

use crate::legal_slices::are_slices_legal;
use crate::made_once::are_made_once;
use crate::matched::are_matched;
use crate::other_entries::are_owed;
use crate::tags::are_accesses_true;
use crate::trace::trace;
use crate::verdict::{Clause, Verdict};
use crate::{
    are_after_commands, are_entries_in_order, are_marks_in_order, are_taken_once, places_of,
    starts_of,
};
use rc_base::NoMemory;
use run_law::Journals;
use run_law::theorems::runs_by_clauses;
use script_ops::Script;
use std::alloc::Global;

// The first clause that is false, in the order of `Clause`, and None where all ten hold. Each test may take the clauses before it
// as given.
fn first_false(alloc: Global, script: &Script, j: &Journals) -> Result<Option<Clause>, NoMemory>
    requires { length j.now.slices ≡ slice_count script.now.machine }
    ensures { IfOk result (λ found. MatchOption found
        (MeetsClauses script.now j.now)
        (λ clause. IsFirstFalse script.now j.now clause)) }
{
    // A script's machine is in its range.
    let _threads = script.threads();
    let tree = j.tree();
    let once = are_taken_once(alloc, script, tree)?;
    if !once {
        return Ok(Some(Clause::CommandsStandOnce));
    }
    let Some(steps) = trace(alloc, script, tree)? else {
        return Ok(Some(Clause::TreeIsLegal));
    };
    let legal = are_slices_legal(alloc, script, j)?;
    if !legal {
        return Ok(Some(Clause::SlicesAreLegal));
    }
    let answered = are_accesses_true(alloc, script, j)?;
    if !answered {
        return Ok(Some(Clause::AccessesAreTrue));
    }
    let places = places_of(alloc, script, tree)?;
    if !are_owed(script, j, &steps, &places) {
        return Ok(Some(Clause::OthersAreTrue));
    }
    if !are_after_commands(script, &places, j) {
        return Ok(Some(Clause::StandAfterCommands));
    }
    let matched = are_matched(alloc, script, j, &steps, &places)?;
    if !matched {
        return Ok(Some(Clause::LooksAreMatched));
    }
    let made = are_made_once(alloc, script, j, &steps, &places)?;
    if !made {
        return Ok(Some(Clause::EntriesStandOnce));
    }
    let starts = starts_of(alloc, script, j)?;
    if !are_marks_in_order(script, j, &starts) {
        return Ok(Some(Clause::MarksInOrder));
    }
    let ordered = are_entries_in_order(alloc, script, j)?;
    if !ordered {
        return Ok(Some(Clause::EntriesInOrder));
    }
    Ok(None)
}

/// Whether journals, whoever made them, are a run of the script, and where they are none, the first clause that is false, in the
/// order of `Clause`. NoMemory where there is no room for what is kept of them.
pub fn check(alloc: Global, script: &Script, journals: &Journals) -> Result<Verdict, NoMemory>
    requires { length journals.now.slices ≡ slice_count script.now.machine }
    ensures { IfOk result (λ v. IsVerdict script.now journals.now v) }
{
    runs_by_clauses();
    match first_false(alloc, script, journals)? {
        Some(clause) => Ok(Verdict::No { clause }),
        None => Ok(Verdict::Yes),
    }
}
