//! The entries of accesses, by epoch.
ghost use Rattle.std.specs.Prelude.{◌≡◌, ℕ, ◌+◌, ◌<◌, ◌↔◌, IfOk, IsTrue, OnOk, length};
ghost use Rattle.std.specs.List.Sorted.{IsNonDecreasingBy};
ghost use Rattle.journal_check.specs.Asks.{AreAsks, IsAsked, epoch_of};
ghost use Rattle.machine.specs.Slices.{slice_count};
ghost use Rattle.run_law.specs.Journals.{slice_at};

use crate::is_access_at;
use crate::owed::is_access;
use cache_core::SliceEntry;
use rc_base::NoMemory;
use run_law::Journals;
use script_ops::Script;
use std::alloc::Global;

/// The entry of an access: its epoch, its slice, and its position there.
#[derive(Clone, Copy, Debug, PartialEq, Eq)]
pub struct Ask {
    pub epoch: u64,
    pub slice: u32,
    pub position: usize,
}

// Whether an entry is an access, and of an access of the script.
fn is_asked(script: &Script, entry: &SliceEntry) -> bool
    ensures { IsTrue result ↔ IsAsked script.now entry.now }
{
    is_access_at(script, entry.thread, entry.op) && is_access(entry.what)
}

// Adds the entry at position p of slice i, where it is one of an access.
fn add_ask(
    asks: &mut Vec<Ask>,
    script: &Script,
    j: &Journals,
    i: u32,
    p: usize,
) -> Result<(), NoMemory>
    requires slice { i < length j.now.slices }
    requires position { p < length (slice_at j.now i) }
    requires asks { AreAsks script.now j.now i p asks.old.items }
    ensures { OnOk result (AreAsks script.now j.now i (p + 1) asks.new.items) }
{
    let entries = j.slice(i);
    let entry = entries[p];
    if !is_asked(script, &entry) {
        return Ok(());
    }
    asks.push(Ask {
        epoch: entry.epoch,
        slice: i,
        position: p,
    })?;
    Ok(())
}

// Adds the entries of accesses in slice i.
fn add_asks(asks: &mut Vec<Ask>, script: &Script, j: &Journals, i: u32) -> Result<(), NoMemory>
    requires slice { i < length j.now.slices }
    requires asks { AreAsks script.now j.now i 0 asks.old.items }
    ensures { OnOk result (AreAsks script.now j.now (i + 1) 0 asks.new.items) }
{
    let entries = j.slice(i);
    for p in 0..entries.len() {
        add_ask(asks, script, j, i, p)?;
    }
    Ok(())
}

// The entries of accesses in all slices, slice by slice.
fn all_asks(alloc: Global, script: &Script, j: &Journals) -> Result<Vec<Ask>, NoMemory>
    requires { length j.now.slices ≡ slice_count script.now.machine }
    ensures { IfOk result (λ v. AreAsks script.now j.now (length j.now.slices) 0 v.items) }
{
    let mut asks = Vec::new(alloc);
    for i in 0..script.machine().slice_count() {
        add_asks(&mut asks, script, j, u32::from(i))?;
    }
    Ok(asks)
}

/// The entries of accesses in all slices, sorted by their epochs. NoMemory where there is no room for them.
pub(crate) fn asks_of(alloc: Global, script: &Script, j: &Journals) -> Result<Vec<Ask>, NoMemory>
    requires { length j.now.slices ≡ slice_count script.now.machine }
    ensures asks { IfOk result (λ v. AreAsks script.now j.now (length j.now.slices) 0 v.items) }
    ensures sorted { IfOk result (λ v. IsNonDecreasingBy epoch_of v.items) }
{
    let mut asks = all_asks(alloc, script, j)?;
    asks.sort_by_key(|ask| ask.epoch)?;
    Ok(asks)
}
