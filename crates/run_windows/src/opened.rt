//! The windows that begin at one flush or lock.
ghost use Rattle.std.specs.Prelude.{◌≡◌, ◌+◌, ◌^◌, ◌<◌, ◌≤◌, length, slice_index_or, IfOk, OnOk};
ghost use Rattle.std.specs.List.{position, position_or_len};
ghost use Rattle.cache_core.specs.Filled.{empties};
ghost use Rattle.cache_core.specs.declared.entry.SliceEntry.{SliceEntry};
ghost use Rattle.machine.specs.Slices.{slice_number};
ghost use Rattle.run_law.specs.Journals.{slice_at};
ghost use Rattle.run_law.specs.Runs.{IsRun};
ghost use Rattle.run_windows.specs.AllWindows.{AreWindowsBefore, IsOpening, with_used};
ghost use Rattle.private_lru.specs.Ends.{RiseByGroup};
ghost use Rattle.run_windows.specs.Stays.{AreStays};
ghost use Rattle.run_windows.specs.Fronts.{front_of};
ghost use Rattle.private_lru.specs.Tallies.{AreCounted, IsCounted};
ghost use Rattle.run_windows.specs.Windows.{StaysExclusive};
ghost use Rattle.script_ops.specs.Values.{IsLawful};

use crate::counting::{empties, window_of};
use crate::opening::Opening;
use cache_core::SliceEntry;
use private_lru::{ExclusiveSpan, WindowCounts, counts_of};
use rc_base::NoMemory;
use run_counts::Window;
use run_replay::Run;
use std::alloc::Global;

// Adds a window in which its group has an access.
fn push_used(windows: &mut Vec<Window>, window: Window) -> Result<(), NoMemory>
    ensures { OnOk result (windows.new.items ≡ with_used windows.old.items window) }
{
    if 0 < window.accesses {
        windows.push(window)?;
    }
    Ok(())
}

// The first of these entries that empties the slice.
fn first_empty(entries: &[SliceEntry]) -> Option<usize>
    ensures { result ≡ position (λ (e : SliceEntry). empties e.what) entries.now }
{
    entries.iter().position(|e| empties(e.what))
}

// How many of these entries stand before it.
fn front_len(entries: &[SliceEntry]) -> usize
    ensures len { result ≡ position_or_len (λ (e : SliceEntry). empties e.what) entries.now }
    ensures within { result ≤ length entries.now }
{
    first_empty(entries).unwrap_or(entries.len())
}

// The entries after a place, up to the first that empties the slice.
fn front_of(entries: &[SliceEntry], from: usize) -> &[SliceEntry]
    requires { from < length entries.now }
    ensures { result.now ≡ front_of from entries.now }
{
    let rest = &entries[from + 1..];
    &rest[..front_len(rest)]
}

// What is counted of the windows of these groups that begin at a flush or a lock.
fn counts_at(
    alloc: Global,
    run: &Run<'_>,
    opening: Opening,
    stays: &[ExclusiveSpan],
) -> Result<Vec<WindowCounts>, NoMemory>
    requires within { opening.from < length (slice_at run.now.journals.now (slice_number run.now.script.now.machine opening.domain opening.slice)) }
    requires few { length (slice_at run.now.journals.now (slice_number run.now.script.now.machine opening.domain opening.slice)) < 2 ^ 32 }
    requires rising { RiseByGroup stays.now }
    ensures { IfOk result (λ counts. (d : SliceEntry) → AreCounted run.now.script.now.machine.sets (slice_index_or (slice_at run.now.journals.now (slice_number run.now.script.now.machine opening.domain opening.slice)) opening.from d).what (front_of opening.from (slice_at run.now.journals.now (slice_number run.now.script.now.machine opening.domain opening.slice))) stays.now counts.items) }
{
    let machine = run.script.machine();
    let number = u32::from(opening.domain) * u32::from(machine.slices) + u32::from(opening.slice);
    let entries = run.journals.slice(number);
    let from = opening.from as usize;
    counts_of(
        alloc,
        stays,
        machine.sets,
        entries[from].what,
        front_of(entries, from),
    )
}

// Adds the window of an exclusive group that begins at a flush or a lock, where the group has an access in it.
fn push_window(
    run: &Run<'_>,
    opening: Opening,
    stay: ExclusiveSpan,
    counts: WindowCounts,
    windows: &mut Vec<Window>,
) -> Result<(), NoMemory>
    requires lawful { IsLawful run.now.script.now }
    requires run { IsRun run.now.script.now run.now.journals.now }
    requires domain { opening.domain < run.now.script.now.machine.domains }
    requires slice { opening.slice < run.now.script.now.machine.slices }
    requires opens { IsOpening run.now.script.now run.now.journals.now opening.domain opening.slice opening.from }
    requires exclusive { (d : SliceEntry) → StaysExclusive run.now.script.now run.now.journals.now opening.domain stay.gid stay.mask (slice_index_or (slice_at run.now.journals.now (slice_number run.now.script.now.machine opening.domain opening.slice)) opening.from d).epoch stay.last }
    requires counted { (d : SliceEntry) → IsCounted run.now.script.now.machine.sets (slice_index_or (slice_at run.now.journals.now (slice_number run.now.script.now.machine opening.domain opening.slice)) opening.from d).what (front_of opening.from (slice_at run.now.journals.now (slice_number run.now.script.now.machine opening.domain opening.slice))) stay counts }
    requires before { AreWindowsBefore run.now.script.now run.now.journals.now (record { domain = opening.domain; slice = opening.slice; from = opening.from; gid = stay.gid.0 }) windows.old.items }
    ensures { OnOk result (AreWindowsBefore run.now.script.now run.now.journals.now (record { domain = opening.domain; slice = opening.slice; from = opening.from; gid = stay.gid.0 + 1 }) windows.new.items) }
{
    push_used(windows, window_of(opening, stay, counts))
}

/// Adds the windows that begin at a flush or a lock, of the groups that are exclusive then.
pub(crate) fn push_opened(
    alloc: Global,
    run: &Run<'_>,
    opening: Opening,
    stays: &[ExclusiveSpan],
    windows: &mut Vec<Window>,
) -> Result<(), NoMemory>
    requires lawful { IsLawful run.now.script.now }
    requires run { IsRun run.now.script.now run.now.journals.now }
    requires domain { opening.domain < run.now.script.now.machine.domains }
    requires slice { opening.slice < run.now.script.now.machine.slices }
    requires opens { IsOpening run.now.script.now run.now.journals.now opening.domain opening.slice opening.from }
    requires stays { (d : SliceEntry) → AreStays run.now.script.now run.now.journals.now opening.domain (slice_index_or (slice_at run.now.journals.now (slice_number run.now.script.now.machine opening.domain opening.slice)) opening.from d).epoch stays.now }
    requires before { AreWindowsBefore run.now.script.now run.now.journals.now (record { domain = opening.domain; slice = opening.slice; from = opening.from; gid = 0 }) windows.old.items }
    ensures { OnOk result (AreWindowsBefore run.now.script.now run.now.journals.now (record { domain = opening.domain; slice = opening.slice; from = opening.from + 1; gid = 0 }) windows.new.items) }
{
    let counts = counts_at(alloc, run, opening, stays)?;
    for i in 0..stays.len() {
        push_window(run, opening, stays[i], counts[i], windows)?;
    }
    Ok(())
}
