//! One domain of a run with code and data prioritization, while the commands of a script are taken.
ghost use Rattle.std.specs.Prelude.{◌≡◌, ℕ, ◌+◌, ◌^◌, ◌<◌, List, OnOk, length, map, slice_get, true};
ghost use Rattle.cache_core.specs.declared.entry.SliceEntry.{SliceEntry as Entry};
ghost use Rattle.pair_law.specs.Epochs.{state_at};
ghost use Rattle.pair_text.specs.Values.{PairScriptValue};
ghost use Rattle.pair_law.specs.Entries.{slice_in};
ghost use Rattle.pair_windows.specs.CdpJournals.{IsPlayed};
ghost use Rattle.pair_windows.specs.CdpWalks.{IsClosable, IsSmall, IsWalked, IsWalkedIn, is_of, journals_of};
ghost use Rattle.pair_windows.specs.Counted.{RiseByEpoch};
ghost use Rattle.pair_windows.specs.Replays.{HasTaken};
ghost use Rattle.run_law.specs.Entries.{entries_of};

use crate::Replay;
use crate::cdp_run::CdpRun;
use crate::cdp_window::CdpWindow;
use crate::counted::{counts_at, push_counted};
use crate::fronts::{flush_len, front_len};
use crate::partition::Partition;
use crate::partition_spans::{DomainState, partitions};
use cache_core::SliceEntry;
use pair_tree::PairTree;
use private_lru::{Span, keep_on};
use rc_base::NoMemory;
use std::alloc::Global;

/// A flush, and the partitions of its epoch as they are kept.
#[derive(Drop)]
pub(crate) struct OpenFlush {
    /// The position of the flush.
    pub from: usize,
    /// How many entries after it may stand in the windows that begin at it.
    pub len: usize,
    /// The epoch of the last of them, or that of the flush where there is none.
    pub last: u64,
    /// The epoch up to which the partitions are kept so far.
    pub until: u64,
    /// The partitions.
    pub kept: Vec<Span<Partition>>,
}

/// A domain: the latest flush that was met, and the windows that begin before it.
#[derive(Drop)]
pub(crate) struct CdpWalk {
    /// The domain, from 0.
    pub domain: u8,
    /// The latest flush that was met. It stands at the next one where its windows are found.
    pub latest: OpenFlush,
    /// The position of the next flush, and the number of entries where there is none.
    pub next: usize,
    /// The windows.
    pub windows: Vec<CdpWindow>,
}

/// The entries of a domain.
pub(crate) fn entries_in(slices: &[Vec<SliceEntry>], domain: u8) -> &[SliceEntry]
    requires { domain < length slices.now }
    ensures { result.now ≡ slice_in (map entries_of slices.now) domain }
{
    slices[usize::from(domain)].as_slice()
}

// Whether the entry at a place, where it is there, is of this epoch.
fn is_due(entries: &[SliceEntry], next: usize, epoch: u64) -> bool
    ensures { result ≡ is_of epoch (slice_get entries.now next) }
{
    match entries.get(next) {
        Some(entry) => entry.epoch == epoch,
        None => false,
    }
}

/// Takes what is kept to the epoch after this one, which is that of a tree, where an entry of a window may be of it.
pub(crate) fn keep(walk: &mut CdpWalk, tree: &PairTree, epoch: u64)
    requires small { IsSmall walk.old }
    requires epoch { epoch + 1 < 2 ^ 64 }
    ensures small { IsSmall walk.new }
    ensures walked { (script : PairScriptValue) (entries : List Entry) (floor domain : ℕ) → tree.now.state ≡ state_at script (epoch + 1) → IsWalked script entries epoch floor domain walk.old
        → IsWalked script entries (epoch + 1) floor domain walk.new }
{
    if walk.latest.last <= walk.latest.until {
        return;
    }
    let state = DomainState {
        tree,
        domain: walk.domain,
    };
    keep_on(&mut walk.latest.kept, &state, epoch);
    walk.latest.until = epoch + 1;
}

/// Adds the windows that begin at the latest flush that was met, where they are not found yet.
pub(crate) fn close(alloc: Global, walk: &mut CdpWalk, run: &CdpRun<'_>) -> Result<(), NoMemory>
    requires played { IsPlayed run.now.script.now (journals_of run.now) }
    requires can { IsClosable run.now walk.old }
    ensures domain { OnOk result (walk.new.domain ≡ walk.old.domain) }
    ensures next { OnOk result (walk.new.next ≡ walk.old.next) }
    ensures closed { OnOk result (walk.new.latest.from ≡ walk.old.next) }
    ensures walked { OnOk result ((epoch floor : ℕ) → IsWalkedIn run.now epoch floor walk.old.domain walk.old → IsWalkedIn run.now epoch floor walk.old.domain walk.new) }
{
    if walk.latest.from == walk.next {
        return Ok(());
    }
    let latest = &walk.latest;
    let entries = entries_in(run.slices, walk.domain);
    let rest = &entries[latest.from + 1..];
    let counts = counts_at(
        alloc,
        run.script.machine().sets,
        &latest.kept,
        &rest[..latest.len],
    )?;
    push_counted(
        &mut walk.windows,
        walk.domain,
        latest.from as u32,
        &latest.kept,
        &counts,
    )?;
    walk.latest.from = walk.next;
    Ok(())
}

// Opens the next flush, of an epoch whose tree this is.
fn open_next(
    alloc: Global,
    walk: &mut CdpWalk,
    entries: &[SliceEntry],
    tree: &PairTree,
    epoch: u64,
) -> Result<(), NoMemory>
    requires small { IsSmall walk.old }
    requires within { walk.old.next < length entries.now }
    ensures domain { OnOk result (walk.new.domain ≡ walk.old.domain) }
    ensures later { OnOk result (walk.old.next < walk.new.next) }
    ensures walked { OnOk result ((script : PairScriptValue) (domain : ℕ) → tree.now.state ≡ state_at script epoch → RiseByEpoch entries.now
        → is_of epoch (slice_get entries.now walk.old.next) ≡ true → walk.old.latest.from ≡ walk.old.next
        → IsWalked script entries.now epoch epoch domain walk.old → IsWalked script entries.now epoch epoch domain walk.new) }
{
    let from = walk.next;
    let rest = &entries[from + 1..];
    let len = front_len(rest);
    walk.latest = OpenFlush {
        from,
        len,
        last: entries[from + len].epoch,
        until: epoch,
        kept: partitions(alloc, tree, walk.domain, epoch)?,
    };
    walk.next = from + 1 + flush_len(rest);
    Ok(())
}

/// Meets the flushes of the epoch of a tree.
pub(crate) fn meet(
    alloc: Global,
    walk: &mut CdpWalk,
    run: &CdpRun<'_>,
    replay: &Replay,
) -> Result<(), NoMemory>
    requires played { IsPlayed run.now.script.now (journals_of run.now) }
    requires taken { HasTaken run.now.script.now replay.now }
    requires exists { walk.old.domain < run.now.script.now.machines.machine.domains }
    requires walked { IsWalkedIn run.now replay.now.tree.epoch replay.now.tree.epoch walk.old.domain walk.old }
    ensures { OnOk result (IsWalkedIn run.now replay.now.tree.epoch (replay.now.tree.epoch + 1) walk.old.domain walk.new) }
{
    let entries = entries_in(run.slices, walk.domain);
    while is_due(entries, walk.next, replay.epoch()) {
        close(alloc, walk, run)?;
        open_next(alloc, walk, entries, replay.tree(), replay.epoch())?;
    }
    Ok(())
}
