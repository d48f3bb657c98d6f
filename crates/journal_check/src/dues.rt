//! What a command owes to a slice, one thing after the other.
ghost use Rattle.std.specs.Prelude.{◌≡◌, ℕ, ◌+◌, ◌<◌, ◌≤◌, ◌==◌, ◌↔◌, [], ◌∷◌, IsTrue, List, MatchOption, false, length};
ghost use Rattle.journal_check.specs.Payments.{due, rest};
ghost use Rattle.machine.specs.Maps.{parameters_of};
ghost use Rattle.machine.specs.Slices.{domain_in};
ghost use Rattle.run_law.specs.Owed.{Owed, follow_in, look_in, paid_by};

use crate::debt::Debt;
use crate::owed::{is_entered_in, is_same, undecided, what_of};
use crate::trace::Step;
use cache_core::{SliceEntry, What};
use machine::Machine;
use tree_core::Follow;

// Whether an entry has this epoch and this content, but for what the slice itself decides.
fn is_payment(epoch: u64, what: What, entry: &SliceEntry) -> bool
    ensures { IsTrue result ↔ ((record { epoch = epoch; what = what }) ≡ paid_by entry.now) }
{
    entry.epoch == epoch && is_same(what, undecided(entry.what))
}

// Whether slice i is of this domain.
fn is_here(m: &Machine, i: usize, domain: u8) -> bool
    ensures { result ≡ (domain == domain_in (parameters_of m.now) i) }
{
    usize::from(domain) == i / usize::from(m.slices)
}

// Whether an entry pays what a command at position k owes to slice i for a need.
fn pays_look(m: &Machine, i: usize, k: u64, need: (u8, u16), entry: &SliceEntry) -> bool
    ensures { IsTrue result ↔ (look_in (parameters_of m.now) i k need ≡ paid_by entry.now ∷ []) }
{
    if !is_here(m, i, need.0) {
        return false;
    }
    let look = What::Look {
        rmid: need.1,
        lines: 0,
    };
    is_payment(k, look, entry)
}

// Whether an entry pays what a command owes to slice i for a follow-up of this epoch.
fn pays_follow(m: &Machine, i: usize, epoch: u64, follow: &Follow, entry: &SliceEntry) -> bool
    ensures { IsTrue result ↔ (follow_in (parameters_of m.now) i epoch follow.now ≡ paid_by entry.now ∷ []) }
{
    if !is_entered_in(m, i, follow) {
        return false;
    }
    is_payment(epoch, what_of(follow), entry)
}

// How many needs and follow-ups a command has.
fn count_of(step: &Step) -> usize
    ensures { result ≡ length step.now.needs + length step.now.follows.items }
{
    step.needs.as_slice().len() + step.follows.len()
}

// Whether something is owed to slice i for the need or follow-up of this number.
fn is_due(m: &Machine, i: usize, step: &Step, c: usize) -> bool
    requires { c < length step.now.needs + length step.now.follows.items }
    ensures none { result ≡ false → (k : ℕ) → due (parameters_of m.now) i k step.now c ≡ [] }
    ensures one { IsTrue result → (k : ℕ) → length (due (parameters_of m.now) i k step.now c) ≡ 1 }
{
    let needs = step.needs.as_slice();
    if c < needs.len() {
        is_here(m, i, needs[c].0)
    } else {
        is_entered_in(m, i, &step.follows[c - needs.len()])
    }
}

// Whether an entry pays what a command owes to a slice for the need or follow-up of this number.
fn pays(debt: &Debt<'_>, c: usize, entry: &SliceEntry) -> bool
    requires position { debt.now.position ≤ 4000000 }
    requires within { c < length debt.now.step.now.needs + length debt.now.step.now.follows.items }
    ensures { IsTrue result ↔ (due (parameters_of debt.now.machine.now) debt.now.slice debt.now.position debt.now.step.now c ≡ paid_by entry.now ∷ []) }
{
    let k = debt.position as u64;
    let needs = debt.step.needs.as_slice();
    if c < needs.len() {
        pays_look(debt.machine, debt.slice, k, needs[c], entry)
    } else {
        let follow = &debt.step.follows[c - needs.len()];
        pays_follow(debt.machine, debt.slice, k + 1, follow, entry)
    }
}

/// The number after that of the need or follow-up which an entry pays, as the first that is owed to the slice from this one on, and
/// `None` where it does not pay that.
pub(crate) fn next_due(debt: &Debt<'_>, from: usize, entry: &SliceEntry) -> Option<usize>
    requires { debt.now.position ≤ 4000000 }
    ensures { MatchOption result
        ((more : List Owed) → rest (parameters_of debt.now.machine.now) debt.now.slice debt.now.position debt.now.step.now from ≡ paid_by entry.now ∷ more → ⊥)
        (λ c. rest (parameters_of debt.now.machine.now) debt.now.slice debt.now.position debt.now.step.now from ≡ paid_by entry.now ∷ rest (parameters_of debt.now.machine.now) debt.now.slice debt.now.position debt.now.step.now c) }
{
    for c in from..count_of(debt.step) {
        if pays(debt, c, entry) {
            return Some(c + 1);
        }
        if is_due(debt.machine, debt.slice, debt.step, c) {
            return None;
        }
    }
    None
}

/// Whether nothing is owed to slice i from this need or follow-up on.
pub(crate) fn is_ended(m: &Machine, i: usize, step: &Step, from: usize) -> bool
    ensures none { IsTrue result → (k : ℕ) → rest (parameters_of m.now) i k step.now from ≡ [] }
    ensures some { result ≡ false → (k : ℕ) → rest (parameters_of m.now) i k step.now from ≡ [] → ⊥ }
{
    for c in from..count_of(step) {
        if is_due(m, i, step, c) {
            return false;
        }
    }
    true
}
