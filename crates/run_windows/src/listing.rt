//! All windows of a run.
ghost use Rattle.std.specs.Prelude.{◌≡◌, ◌+◌, ◌<◌, ◌≤◌, ◌^◌, true, [], length, IfOk, OnOk};
ghost use Rattle.cache_core.specs.Filled.{empties};
ghost use Rattle.cache_core.specs.declared.entry.SliceEntry.{SliceEntry};
ghost use Rattle.machine.specs.Slices.{slice_number};
ghost use Rattle.run_law.specs.Journals.{At, slice_at};
ghost use Rattle.run_law.specs.Runs.{IsRun};
ghost use Rattle.run_windows.specs.AllWindows.{AreWindowsBefore, AreWindowsOf};
ghost use Rattle.run_replay.specs.Playbacks.{HasTakenBefore};
ghost use Rattle.run_windows.specs.Changes.{AreChanges};
ghost use Rattle.run_windows.specs.Edits.{changes_of};
ghost use Rattle.run_windows.specs.Followed.{HasFollowed, followed_tree};
ghost use Rattle.run_windows.specs.Timelines.{IsTimeline};
ghost use Rattle.script_ops.specs.Values.{IsLawful};

use crate::changes::Past;
use crate::counting::empties;
use crate::followed::{FollowedReplay, changes_after};
use crate::opened::push_opened;
use crate::opening::Opening;
use crate::quiet::has_exclusive_write;
use crate::timeline::{Timeline, stays_at, timeline_of};
use cache_core::SliceEntry;
use rc_base::NoMemory;
use run_counts::Window;
use run_law::Journals;
use run_replay::Run;
use script_ops::Script;
use std::alloc::Global;

// Adds the windows that begin at an entry of a slice, where it is a flush or a lock.
fn push_entry(
    alloc: Global,
    timeline: &Timeline<'_>,
    opening: Opening,
    entry: &SliceEntry,
    windows: &mut Vec<Window>,
) -> Result<(), NoMemory>
    requires timeline { IsTimeline opening.domain timeline.now }
    requires slice { opening.slice < timeline.now.run.script.now.machine.slices }
    requires entry { At (slice_at timeline.now.run.journals.now (slice_number timeline.now.run.script.now.machine opening.domain opening.slice)) opening.from entry.now }
    requires before { AreWindowsBefore timeline.now.run.script.now timeline.now.run.journals.now (record { domain = opening.domain; slice = opening.slice; from = opening.from; gid = 0 }) windows.old.items }
    ensures { OnOk result (AreWindowsBefore timeline.now.run.script.now timeline.now.run.journals.now (record { domain = opening.domain; slice = opening.slice; from = opening.from + 1; gid = 0 }) windows.new.items) }
{
    if !empties(entry.what) {
        return Ok(());
    }
    let stays = stays_at(alloc, timeline, opening.domain, entry.epoch)?;
    push_opened(alloc, &timeline.run, opening, &stays, windows)
}

// Adds the windows of a slice.
fn push_slice(
    alloc: Global,
    timeline: &Timeline<'_>,
    domain: u8,
    slice: u8,
    windows: &mut Vec<Window>,
) -> Result<(), NoMemory>
    requires timeline { IsTimeline domain timeline.now }
    requires slice { slice < timeline.now.run.script.now.machine.slices }
    requires before { AreWindowsBefore timeline.now.run.script.now timeline.now.run.journals.now (record { domain = domain; slice = slice; from = 0; gid = 0 }) windows.old.items }
    ensures { OnOk result (AreWindowsBefore timeline.now.run.script.now timeline.now.run.journals.now (record { domain = domain; slice = slice + 1; from = 0; gid = 0 }) windows.new.items) }
{
    let run = &timeline.run;
    let number = u32::from(domain) * u32::from(run.script.machine().slices) + u32::from(slice);
    let entries = run.journals.slice(number);
    for (from, entry) in entries.iter().enumerate() {
        let opening = Opening {
            domain,
            slice,
            from: from as u32,
        };
        push_entry(alloc, timeline, opening, entry, windows)?;
    }
    Ok(())
}

// Adds the windows of a domain, slice by slice.
fn push_domain(
    alloc: Global,
    run: &Run<'_>,
    domain: u8,
    changes: &[Past],
    windows: &mut Vec<Window>,
) -> Result<(), NoMemory>
    requires lawful { IsLawful run.now.script.now }
    requires run { IsRun run.now.script.now run.now.journals.now }
    requires domain { domain < run.now.script.now.machine.domains }
    requires changes { AreChanges run.now.script.now run.now.journals.now (length run.now.journals.now.tree + 1) (changes_of [] changes.now) }
    requires before { AreWindowsBefore run.now.script.now run.now.journals.now (record { domain = domain; slice = 0; from = 0; gid = 0 }) windows.old.items }
    ensures { OnOk result (AreWindowsBefore run.now.script.now run.now.journals.now (record { domain = domain + 1; slice = 0; from = 0; gid = 0 }) windows.new.items) }
{
    let timeline = timeline_of(alloc, run, domain, changes)?;
    for slice in 0..run.script.machine().slices {
        push_slice(alloc, &timeline, domain, slice, windows)?;
    }
    Ok(())
}

// All windows of a run, by the changes of its exclusive groups.
fn list(alloc: Global, run: &Run<'_>, changes: &[Past]) -> Result<Vec<Window>, NoMemory>
    requires lawful { IsLawful run.now.script.now }
    requires run { IsRun run.now.script.now run.now.journals.now }
    requires changes { AreChanges run.now.script.now run.now.journals.now (length run.now.journals.now.tree + 1) (changes_of [] changes.now) }
    ensures { IfOk result (λ windows. AreWindowsOf run.now.script.now run.now.journals.now windows.items) }
{
    let mut windows: Vec<Window> = Vec::new(alloc);
    for domain in 0..run.script.machine().domains {
        push_domain(alloc, run, domain, changes, &mut windows)?;
    }
    Ok(windows)
}

/// The windows of a run in which a control group stays exclusive on one mask after a flush or a lock, each with at least one
/// access of the group: by domain, by slice, by the position of the flush or lock, and by group in order of creation (this
/// project's profile).
///
/// Where no command asks for the mode `exclusive`, there is none. Else the tree is played once more. Each command that changes an
/// exclusive group or a mask of one costs the record of that group, some 60 bytes, and in one domain at a time 16 bytes of a
/// stay at most. Then the accesses from a flush or
/// a lock up to the next one are sorted by line, for all groups that are exclusive at it, in 16 bytes for each and as many again
/// for the sort, and walked for where the covered accesses of each group end. The entries are walked three times besides.
pub fn windows(alloc: Global, script: &Script, journals: &Journals) -> Result<Vec<Window>, NoMemory>
    requires lawful { IsLawful script.now }
    requires run { IsRun script.now journals.now }
    ensures { IfOk result (λ windows. AreWindowsOf script.now journals.now windows.items) }
{
    if !has_exclusive_write(script, journals) {
        return Ok(Vec::new(alloc));
    }
    let run = Run { script, journals };
    let followed = FollowedReplay::create(alloc, script, journals)?;
    let changes = changes_after(&run, followed)?;
    list(alloc, &run, &changes)
}

/// The same windows, where the tree was taken through its history so far already: only the rest of it is played for them, and
/// nothing where no command asks for the mode `exclusive`.
pub fn windows_after(
    alloc: Global,
    run: &Run<'_>,
    followed: FollowedReplay,
) -> Result<Vec<Window>, NoMemory>
    requires taken { HasTakenBefore run.now.script.now run.now.journals.now.tree (length run.now.journals.now.tree) (followed_tree followed) }
    requires noted { HasFollowed run.now.script.now run.now.journals.now followed }
    ensures { IfOk result (λ windows. AreWindowsOf run.now.script.now run.now.journals.now windows.items) }
{
    if !has_exclusive_write(run.script, run.journals) {
        return Ok(Vec::new(alloc));
    }
    let changes = changes_after(run, followed)?;
    list(alloc, run, &changes)
}
