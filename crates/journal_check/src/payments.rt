//! Whether the entries of a slice are just what the commands owe to it.
ghost use Rattle.std.specs.Prelude.{◌≡◌, ℕ, ◌+◌, ◌<◌, ◌≤◌, ◌↔◌, [], ◌∷◌, IfOk, IsTrue, List, false, length, slice_index, slice_set, take};
ghost use Rattle.journal_check.specs.Payments.{AreAllPaid, AreEnded, ArePaid, PaysNext, rest};
ghost use Rattle.journal_check.specs.TracedJournals.{IsTraced};
ghost use Rattle.journal_check.specs.Tables.{AreZero};
ghost use Rattle.machine.specs.Maps.{parameters_of};
ghost use Rattle.run_law.specs.Journals.{slice_at};
ghost use Rattle.run_law.specs.Owed.{Owed, paid_by};

use crate::debt::Debt;
use crate::dues::{is_ended, next_due};
use crate::trace::Step;
use crate::traced_journals::TracedJournals;
use cache_core::SliceEntry;
use machine::Machine;
use rc_base::NoMemory;
use std::alloc::Global;

// So many zeros.
fn zeros(alloc: Global, count: usize) -> Result<Vec<usize>, NoMemory>
    ensures count { IfOk result (λ v. length v.items ≡ count) }
    ensures zero { IfOk result (λ v. AreZero v.items) }
{
    Ok(vec![in alloc; 0; count]?)
}

// Whether an entry of slice i is the next that the command at position k owes; then its cursor is moved.
fn pays_next(cursors: &mut Vec<usize>, debt: &Debt<'_>, entry: &SliceEntry) -> bool
    requires position { debt.now.position ≤ 4000000 }
    requires within { debt.now.position < length cursors.old.items }
    ensures cursors { length cursors.new.items ≡ length cursors.old.items }
    ensures paid { IsTrue result → PaysNext (parameters_of debt.now.machine.now) debt.now.slice debt.now.position debt.now.step.now entry.now cursors.old.items cursors.new.items }
    ensures unpaid { result ≡ false → (more : List Owed) → rest (parameters_of debt.now.machine.now) debt.now.slice debt.now.position debt.now.step.now (slice_index cursors.old.items debt.now.position) ≡ paid_by entry.now ∷ more → ⊥ }
{
    let k = debt.position;
    match next_due(debt, cursors[k], entry) {
        Some(next) => {
            cursors[k] = next;
            true
        }
        None => false,
    }
}

// Whether the entry at position p of slice i is the next that its command owes, or of no command.
fn pays_one(cursors: &mut Vec<usize>, traced: &TracedJournals<'_>, i: u32, p: usize) -> bool
    requires slice { i < length traced.now.journals.now.slices }
    requires position { p < length (slice_at traced.now.journals.now i) }
    requires traced { IsTraced traced.now }
    requires cursors { length cursors.old.items ≡ length traced.now.journals.now.tree }
    requires paid { ArePaid traced.now.script.now.machine i traced.now.journals.now.tree traced.now.steps.now (take p (slice_at traced.now.journals.now i)) cursors.old.items }
    ensures cursors { length cursors.new.items ≡ length traced.now.journals.now.tree }
    ensures paid { IsTrue result → ArePaid traced.now.script.now.machine i traced.now.journals.now.tree traced.now.steps.now (take (p + 1) (slice_at traced.now.journals.now i)) cursors.new.items }
    ensures unpaid { result ≡ false → AreAllPaid traced.now.script.now.machine i traced.now.journals.now.tree traced.now.steps.now (slice_at traced.now.journals.now i) → ⊥ }
{
    let entries = traced.journals.slice(i);
    let entry = &entries[p];
    match traced.places.get(entry.thread, entry.op) {
        Some(place) => {
            if place == 0 {
                return true;
            }
            let k = place as usize - 1;
            let debt = Debt {
                machine: traced.script.machine(),
                slice: i as usize,
                position: k,
                step: &traced.steps[k],
            };
            pays_next(cursors, &debt, entry)
        }
        None => true,
    }
}

// Whether each entry of slice i is the next that its command owes, or of no command.
fn pay_all(cursors: &mut Vec<usize>, traced: &TracedJournals<'_>, i: u32) -> bool
    requires slice { i < length traced.now.journals.now.slices }
    requires traced { IsTraced traced.now }
    requires cursors { length cursors.old.items ≡ length traced.now.journals.now.tree }
    requires paid { ArePaid traced.now.script.now.machine i traced.now.journals.now.tree traced.now.steps.now [] cursors.old.items }
    ensures cursors { length cursors.new.items ≡ length traced.now.journals.now.tree }
    ensures paid { IsTrue result → ArePaid traced.now.script.now.machine i traced.now.journals.now.tree traced.now.steps.now (slice_at traced.now.journals.now i) cursors.new.items }
    ensures unpaid { result ≡ false → AreAllPaid traced.now.script.now.machine i traced.now.journals.now.tree traced.now.steps.now (slice_at traced.now.journals.now i) → ⊥ }
{
    let entries = traced.journals.slice(i);
    for p in 0..entries.len() {
        if !pays_one(cursors, traced, i, p) {
            return false;
        }
    }
    true
}

// Whether nothing is left of what the commands owe to slice i.
fn are_ended(m: &Machine, i: usize, steps: &[Step], cursors: &[usize]) -> bool
    requires { length cursors.now ≡ length steps.now }
    ensures { IsTrue result ↔ AreEnded (parameters_of m.now) i steps.now cursors.now }
{
    for k in 0..steps.len() {
        if !is_ended(m, i, &steps[k], cursors[k]) {
            return false;
        }
    }
    true
}

/// Whether the entries of slice i are just what the commands owe to it, in the time of the entries, the needs and the follow-ups.
/// NoMemory where there is no room for a cursor for each command.
pub(crate) fn are_all_paid(
    alloc: Global,
    traced: &TracedJournals<'_>,
    i: u32,
) -> Result<bool, NoMemory>
    requires slice { i < length traced.now.journals.now.slices }
    requires traced { IsTraced traced.now }
    ensures { IfOk result (λ holds. IsTrue holds ↔ AreAllPaid traced.now.script.now.machine i traced.now.journals.now.tree traced.now.steps.now (slice_at traced.now.journals.now i)) }
{
    let steps = traced.steps;
    let mut cursors = zeros(alloc, steps.len())?;
    if !pay_all(&mut cursors, traced, i) {
        return Ok(false);
    }
    Ok(are_ended(traced.script.machine(), i as usize, steps, &cursors))
}
