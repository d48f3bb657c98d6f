//! Whether every entry but those of accesses is one that its command owes.
ghost use Rattle.std.specs.Prelude.{◌≡◌, ◌<◌, ◌↔◌, IsTrue, length};
ghost use Rattle.journal_check.specs.Places.{AreOwnPlaces, ArePlaces};
ghost use Rattle.journal_check.specs.Tables.{AreTakenOnce, IsTableOf};
ghost use Rattle.run_law.specs.Clauses.{OthersAreTrue};
ghost use Rattle.journal_check.specs.TracedJournals.{IsTraced};
ghost use Rattle.journal_check.specs.Traces.{AreTrueOthers, IsTrace, IsTrueOther};
ghost use Rattle.machine.specs.Slices.{slice_count};
ghost use Rattle.run_law.specs.Journals.{slice_at};

use crate::owed::{is_access, is_owed};
use crate::trace::Step;
use crate::traced_journals::TracedJournals;
use crate::{OpTable, is_access_at};
use cache_core::SliceEntry;
use run_law::Journals;
use script_ops::Script;

// Whether an entry of slice i is an access of an access, one that its command owes, or of no op of the script.
fn is_true_other(traced: &TracedJournals<'_>, i: u8, entry: &SliceEntry) -> bool
    requires once { AreTakenOnce traced.now.script.now traced.now.journals.now.tree }
    requires traced { IsTraced traced.now }
    ensures { IsTrue result ↔ IsTrueOther traced.now.script.now traced.now.journals.now.tree i entry.now }
{
    let script = traced.script;
    if is_access_at(script, entry.thread, entry.op) {
        return is_access(entry.what);
    }
    match traced.places.get(entry.thread, entry.op) {
        Some(place) => {
            let k = place - 1;
            is_owed(script.machine(), i, k, &traced.steps[k as usize], entry)
        }
        None => true,
    }
}

// Whether each of these entries of slice i is.
fn are_true_others(traced: &TracedJournals<'_>, i: u8) -> bool
    requires slice { i < length traced.now.journals.now.slices }
    requires once { AreTakenOnce traced.now.script.now traced.now.journals.now.tree }
    requires traced { IsTraced traced.now }
    ensures { IsTrue result ↔ AreTrueOthers traced.now.script.now traced.now.journals.now.tree i (slice_at traced.now.journals.now i) }
{
    for entry in traced.journals.slice(u32::from(i)) {
        if !is_true_other(traced, i, entry) {
            return false;
        }
    }
    true
}

/// Whether in every slice each entry of a command is one that it owes, and each of an access an access, in the time of the entries,
/// each with a search among what its command needed, or a walk through the few follow-ups of it.
pub fn are_owed(script: &Script, j: &Journals, steps: &[Step], places: &OpTable) -> bool
    requires all { length j.now.slices ≡ slice_count script.now.machine }
    requires once { AreTakenOnce script.now j.now.tree }
    requires trace { IsTrace script.now j.now.tree (length j.now.tree) steps.now }
    requires table { IsTableOf script.now places.now }
    requires places { ArePlaces script.now places.now j.now.tree }
    requires own { AreOwnPlaces places.now }
    ensures { IsTrue result ↔ OthersAreTrue script.now j.now }
{
    let traced = TracedJournals {
        script,
        journals: j,
        steps,
        places,
    };
    for i in 0..script.machine().slice_count() {
        if !are_true_others(&traced, i) {
            return false;
        }
    }
    true
}
