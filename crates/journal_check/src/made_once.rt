//! Whether the entries of each op stand in each slice just as it makes them there, and no others.
ghost use Rattle.std.specs.Prelude.{◌≡◌, ◌↔◌, IfOk, IsTrue, length};
ghost use Rattle.journal_check.specs.Payments.{AreSlicesPaid};
ghost use Rattle.journal_check.specs.TracedJournals.{IsTraced};
ghost use Rattle.journal_check.specs.Traces.{IsTrace};
ghost use Rattle.journal_check.specs.Places.{AreOwnPlaces, ArePlaces};
ghost use Rattle.journal_check.specs.Tables.{IsTableOf};
ghost use Rattle.machine.specs.Slices.{slice_count};
ghost use Rattle.run_law.specs.Clauses.{EntriesStandOnce};
ghost use Rattle.run_law.specs.TreeHistory.{IsLegalTree};

use crate::payments::are_all_paid;
use crate::trace::Step;
use crate::traced_journals::TracedJournals;
use crate::{OpTable, are_accesses_once, are_known};
use rc_base::NoMemory;
use run_law::Journals;
use script_ops::Script;
use std::alloc::Global;

// Whether the entries of each slice are just what the commands owe to it.
fn are_commands_paid(alloc: Global, traced: &TracedJournals<'_>) -> Result<bool, NoMemory>
    requires all { length traced.now.journals.now.slices ≡ slice_count traced.now.script.now.machine }
    requires traced { IsTraced traced.now }
    ensures { IfOk result (λ holds. IsTrue holds ↔ AreSlicesPaid traced.now.script.now.machine traced.now.journals.now traced.now.steps.now) }
{
    for i in 0..traced.script.machine().slice_count() {
        let paid = are_all_paid(alloc, traced, u32::from(i))?;
        if !paid {
            return Ok(false);
        }
    }
    Ok(true)
}

/// Whether the entries of each op stand in each slice just as it makes them there, and no others: in the time of the ops and the
/// entries, and for each slice of the needs and follow-ups. NoMemory where there is no room for a number for each op.
pub(crate) fn are_made_once(
    alloc: Global,
    script: &Script,
    j: &Journals,
    steps: &[Step],
    places: &OpTable,
) -> Result<bool, NoMemory>
    requires all { length j.now.slices ≡ slice_count script.now.machine }
    requires legal { IsLegalTree script.now j.now.tree }
    requires trace { IsTrace script.now j.now.tree (length j.now.tree) steps.now }
    requires table { IsTableOf script.now places.now }
    requires places { ArePlaces script.now places.now j.now.tree }
    requires own { AreOwnPlaces places.now }
    ensures { IfOk result (λ holds. IsTrue holds ↔ EntriesStandOnce script.now j.now) }
{
    if !are_known(script, j) {
        return Ok(false);
    }
    let accesses = are_accesses_once(alloc, script, j)?;
    if !accesses {
        return Ok(false);
    }
    let traced = TracedJournals {
        script,
        journals: j,
        steps,
        places,
    };
    let paid = are_commands_paid(alloc, &traced)?;
    Ok(paid)
}
