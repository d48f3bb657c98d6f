//! All domains of a run with code and data prioritization, while the commands of a script are taken once.
ghost use Rattle.std.specs.Prelude.{◌≡◌, ℕ, ◌+◌, ◌^◌, ◌<◌, ◌≢◌, ◌⊎◌, All, IfOk, OnOk, false, length, true};
ghost use Rattle.pair_law.specs.Epochs.{state_at};
ghost use Rattle.pair_text.specs.Values.{commands_of};
ghost use Rattle.pair_windows.specs.CdpJournals.{IsPlayed};
ghost use Rattle.pair_windows.specs.CdpWalks.{HasFoundAll, IsDone, IsDoneAt, IsSmall, IsWalkedIn, entries_of_domain, journals_of};
ghost use Rattle.pair_windows.specs.DomainWalks.{Each};
ghost use Rattle.pair_windows.specs.Replays.{HasTaken};
ghost use Rattle.pair_windows.specs.declared.cdp_run.CdpRun.{CdpRun as RunValue};

use crate::Replay;
use crate::cdp_run::CdpRun;
use crate::cdp_walks::{CdpWalk, OpenFlush, close, entries_in, keep, meet};
use crate::fronts::flush_len;
use pair_tree::PairTree;
use rc_base::NoMemory;
use std::alloc::Global;

// A domain before the first command.
fn fresh_walk(alloc: Global, run: &CdpRun<'_>, domain: u8) -> CdpWalk
    requires played { IsPlayed run.now.script.now (journals_of run.now) }
    requires exists { domain < run.now.script.now.machines.machine.domains }
    ensures { IsWalkedIn run.now 0 0 domain result }
{
    let next = flush_len(entries_in(run.slices, domain));
    let latest = OpenFlush {
        from: next,
        len: 0,
        last: 0,
        until: 0,
        kept: Vec::new(alloc),
    };
    CdpWalk {
        domain,
        latest,
        next,
        windows: Vec::new(alloc),
    }
}

/// All domains before the first command.
pub(crate) fn fresh_walks(alloc: Global, run: &CdpRun<'_>) -> Result<Vec<CdpWalk>, NoMemory>
    requires played { IsPlayed run.now.script.now (journals_of run.now) }
    ensures count { IfOk result (λ walks. length walks.items ≡ run.now.script.now.machines.machine.domains) }
    ensures walked { IfOk result (λ walks. Each (IsWalkedIn run.now 0 0) walks.items) }
{
    let mut walks = Vec::new(alloc);
    for domain in 0..run.script.machine().domains {
        walks.push(fresh_walk(alloc, run, domain))?;
    }
    Ok(walks)
}

/// Meets the flushes of the epoch of a tree in each domain.
pub(crate) fn meet_all(
    alloc: Global,
    walks: &mut [CdpWalk],
    run: &CdpRun<'_>,
    replay: &Replay,
) -> Result<(), NoMemory>
    requires played { IsPlayed run.now.script.now (journals_of run.now) }
    requires one_each { length walks.old ≡ run.now.script.now.machines.machine.domains }
    requires taken { HasTaken run.now.script.now replay.now }
    requires walked { Each (IsWalkedIn run.now replay.now.tree.epoch replay.now.tree.epoch) walks.old }
    ensures { OnOk result (Each (IsWalkedIn run.now replay.now.tree.epoch (replay.now.tree.epoch + 1)) walks.new) }
{
    for walk in walks {
        meet(alloc, walk, run, replay)?;
    }
    Ok(())
}

// Takes what is kept in each domain to the epoch after this one, which is that of a tree.
fn keep_all(walks: &mut [CdpWalk], tree: &PairTree, epoch: u64)
    requires small { All IsSmall walks.old }
    requires epoch { epoch + 1 < 2 ^ 64 }
    ensures { (run : RunValue) (floor : ℕ) → tree.now.state ≡ state_at run.script.now (epoch + 1) → Each (IsWalkedIn run epoch floor) walks.old
        → Each (IsWalkedIn run (epoch + 1) floor) walks.new }
{
    for walk in walks {
        keep(walk, tree, epoch);
    }
}

// Whether all flushes of a domain are met, and what is kept is complete.
fn is_done(walk: &CdpWalk, run: &CdpRun<'_>) -> bool
    requires { walk.now.domain < length run.now.slices.now }
    ensures done { result ≡ true → IsDone run.now walk.now.domain walk.now }
    ensures more { result ≡ false → (walk.now.next < length (entries_of_domain run.now walk.now.domain))
        ⊎ ((walk.now.latest.from ≢ walk.now.next) × (walk.now.latest.until < walk.now.latest.last)) }
{
    if walk.next < entries_in(run.slices, walk.domain).len() {
        return false;
    }
    if walk.latest.from == walk.next {
        return true;
    }
    walk.latest.last <= walk.latest.until
}

// Whether that is so of each domain.
fn are_done(walks: &[CdpWalk], run: &CdpRun<'_>, epoch: u64) -> bool
    requires played { IsPlayed run.now.script.now (journals_of run.now) }
    requires one_each { length walks.now ≡ run.now.script.now.machines.machine.domains }
    requires walked { Each (IsWalkedIn run.now epoch (epoch + 1)) walks.now }
    ensures done { result ≡ true → Each (IsDone run.now) walks.now }
    ensures more { result ≡ false → epoch < length (commands_of run.now.script.now) }
{
    for walk in walks {
        if !is_done(walk, run) {
            return false;
        }
    }
    true
}

// Takes a command, and in each domain what is kept.
fn take_command(walks: &mut [CdpWalk], run: &CdpRun<'_>, replay: &mut Replay)
    requires played { IsPlayed run.now.script.now (journals_of run.now) }
    requires one_each { length walks.old ≡ run.now.script.now.machines.machine.domains }
    requires taken { HasTaken run.now.script.now replay.old }
    requires more { replay.old.tree.epoch < length (commands_of run.now.script.now) }
    requires walked { Each (IsWalkedIn run.now replay.old.tree.epoch (replay.old.tree.epoch + 1)) walks.old }
    ensures taken { HasTaken run.now.script.now replay.new }
    ensures epoch { replay.new.tree.epoch ≡ replay.old.tree.epoch + 1 }
    ensures walked { Each (IsWalkedIn run.now replay.new.tree.epoch replay.new.tree.epoch) walks.new }
{
    let epoch = replay.epoch();
    replay.take_command(run.script);
    keep_all(walks, replay.tree(), epoch);
}

/// Takes the commands, as far as a window may go.
pub(crate) fn take_commands(
    alloc: Global,
    walks: &mut [CdpWalk],
    run: &CdpRun<'_>,
    replay: &mut Replay,
) -> Result<(), NoMemory>
    requires played { IsPlayed run.now.script.now (journals_of run.now) }
    requires one_each { length walks.old ≡ run.now.script.now.machines.machine.domains }
    requires taken { HasTaken run.now.script.now replay.old }
    requires walked { Each (IsWalkedIn run.now replay.old.tree.epoch (replay.old.tree.epoch + 1)) walks.old }
    ensures { OnOk result (Each (IsDoneAt run.now replay.new.tree.epoch) walks.new) }
{
    while !are_done(walks, run, replay.epoch()) {
        take_command(walks, run, replay);
        meet_all(alloc, walks, run, replay)?;
    }
    Ok(())
}

/// Adds the windows that are not found yet.
pub(crate) fn close_all(
    alloc: Global,
    walks: &mut [CdpWalk],
    run: &CdpRun<'_>,
    epoch: u64,
) -> Result<(), NoMemory>
    requires played { IsPlayed run.now.script.now (journals_of run.now) }
    requires one_each { length walks.old ≡ run.now.script.now.machines.machine.domains }
    requires done { Each (IsDoneAt run.now epoch) walks.old }
    ensures { OnOk result (Each (HasFoundAll run.now) walks.new) }
{
    for walk in walks {
        close(alloc, walk, run)?;
    }
    Ok(())
}
