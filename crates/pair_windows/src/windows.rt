//! The windows of a run with code and data prioritization.
ghost use Rattle.std.specs.Prelude.{◌≡◌, ◌++◌, IfOk, OnOk, length};
ghost use Rattle.std.specs.List.{flat_map};
ghost use Rattle.pair_windows.specs.CdpJournals.{IsPlayed, cdp_journals};
ghost use Rattle.pair_windows.specs.CdpWalks.{IsWalkedIn, journals_of};
ghost use Rattle.pair_windows.specs.CdpWindows.{cdp_windows};
ghost use Rattle.pair_windows.specs.DomainWalks.{Each};
ghost use Rattle.pair_windows.specs.declared.cdp_walks.CdpWalk.{CdpWalk as WalkValue};

use crate::Replay;
use crate::cdp_domains::{close_all, fresh_walks, meet_all, take_commands};
use crate::cdp_run::CdpRun;
use crate::cdp_walks::CdpWalk;
use crate::cdp_window::CdpWindow;
use crate::quiet::has_exclusive_write;
use cache_core::SliceEntry;
use pair_text::PairScript;
use rc_base::{NoMemory, Reply};
use std::alloc::Global;

// Adds these windows.
fn push_windows(all: &mut Vec<CdpWindow>, windows: &[CdpWindow]) -> Result<(), NoMemory>
    ensures { OnOk result (all.new.items ≡ all.old.items ++ windows.now) }
{
    for window in windows {
        all.push(*window)?;
    }
    Ok(())
}

// The windows of all domains, in order.
fn windows_of(alloc: Global, walks: &[CdpWalk]) -> Result<Vec<CdpWindow>, NoMemory>
    ensures { IfOk result (λ windows. windows.items ≡ flat_map (λ (w : WalkValue). w.windows.items) walks.now) }
{
    let mut windows: Vec<CdpWindow> = Vec::new(alloc);
    for walk in walks {
        push_windows(&mut windows, &walk.windows)?;
    }
    Ok(windows)
}

// The windows of these domains, of which none was found yet. The tree is played once more for all of them.
fn find_windows(
    alloc: Global,
    run: &CdpRun<'_>,
    walks: &mut [CdpWalk],
) -> Result<Vec<CdpWindow>, NoMemory>
    requires played { IsPlayed run.now.script.now (journals_of run.now) }
    requires one_each { length walks.old ≡ run.now.script.now.machines.machine.domains }
    requires fresh { Each (IsWalkedIn run.now 0 0) walks.old }
    ensures { IfOk result (λ windows. windows.items ≡ cdp_windows run.now.script.now (journals_of run.now)) }
{
    let mut replay = Replay::create(alloc, run.script)?;
    meet_all(alloc, walks, run, &replay)?;
    take_commands(alloc, walks, run, &mut replay)?;
    close_all(alloc, walks, run, replay.epoch())?;
    let windows = windows_of(alloc, walks)?;
    Ok(windows)
}

/// The windows of a run with code and data prioritization in which a side of a group has the ways of its mask for itself, after a
/// flush, and uses lines: by domain, by the position of the flush, by group in order of creation, and of data before code (this
/// project's profile).
///
/// Where no command writes the mode exclusive, there are none, and the ops are looked at once. Else the tree is played once more, for
/// all domains together and as far as a window may go, and the entries after a flush at which a side of a group has ways for itself
/// are walked some times, whatever the number of groups, as `private_lru` says.
pub fn cdp_windows(
    alloc: Global,
    script: &PairScript,
    replies: &[Reply],
    slices: &[Vec<SliceEntry>],
) -> Result<Vec<CdpWindow>, NoMemory>
    requires { IsPlayed script.now (cdp_journals replies.now slices.now) }
    ensures { IfOk result (λ windows. windows.items ≡ cdp_windows script.now (cdp_journals replies.now slices.now)) }
{
    if !has_exclusive_write(script) {
        return Ok(Vec::new(alloc));
    }
    let run = CdpRun {
        script,
        replies,
        slices,
    };
    let mut walks = fresh_walks(alloc, &run)?;
    let windows = find_windows(alloc, &run, &mut walks)?;
    Ok(windows)
}
