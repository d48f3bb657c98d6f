//! The windows of a run with two levels.
ghost use Rattle.std.specs.Prelude.{◌≡◌, ◌+◌, ◌<◌, ◌≤◌, ◌++◌, IfOk, OnOk, length, true};
ghost use Rattle.std.specs.List.{flat_map};
ghost use Rattle.pair_text.specs.Values.{op_at};
ghost use Rattle.pair_text.specs.declared.side.Side.TheVariants.{First, Second};
ghost use Rattle.pair_law.specs.JointWindows.{is_flush};
ghost use Rattle.pair_law.specs.LevelRuns.{LevelJournalsValue};
ghost use Rattle.pair_windows.specs.DomainWalks.{Each, HasFound, IsFresh};
ghost use Rattle.pair_windows.specs.Hits.{AreHits};
ghost use Rattle.pair_windows.specs.JointWindows.{joint_windows};
ghost use Rattle.pair_windows.specs.LevelJournals.{IsPlayedOnLevels, journals_in};
ghost use Rattle.pair_windows.specs.Replays.{HasTaken, IsPlayable};
ghost use Rattle.pair_windows.specs.Segments.{CanWalk, IsSegment};
ghost use Rattle.pair_windows.specs.declared.domain_walks.DomainWalk.{DomainWalk as DomainWalkValue};

use crate::Replay;
use crate::domain_walks::{DomainWalk, fresh_walks};
use crate::hits::hits_on;
use crate::joint_counted::close_all;
use crate::joint_window::JointWindow;
use crate::level_journals_ref::LevelJournalsRef;
use crate::level_spans::has_exclusive;
use crate::level_walks::take_segment;
use crate::quiet::has_exclusive_write;
use crate::segments::{Hits, is_end};
use pair_text::{PairScript, Side};
use rc_base::NoMemory;
use std::alloc::Global;

// Takes the ops up to the next flush.
fn take_quiet(script: &PairScript, replay: &mut Replay)
    requires playable { IsPlayable script.now }
    requires taken { HasTaken script.now replay.old }
    requires within { replay.old.place ≤ length script.now.ops }
    ensures taken { HasTaken script.now replay.new }
    ensures segment { IsSegment script.now replay.old.place replay.new.place }
{
    while !is_end(script, replay.place()) {
        replay.take_op(script);
    }
}

// Takes a flush and the ops up to the next one, and adds the windows that begin at it: none where no group is exclusive then.
fn push_flush(
    alloc: Global,
    script: &PairScript,
    hits: &Hits,
    replay: &mut Replay,
    walks: &mut [DomainWalk],
) -> Result<(), NoMemory>
    requires walk { CanWalk script.now hits.now }
    requires one_each { length walks.old ≡ script.now.machines.machine.domains }
    requires taken { HasTaken script.now replay.old }
    requires within { replay.old.place < length script.now.ops }
    requires flush { is_flush (op_at script.now replay.old.place) ≡ true }
    requires found { Each (HasFound script.now hits.now replay.old.place) walks.old }
    ensures taken { OnOk result (HasTaken script.now replay.new) }
    ensures segment { OnOk result (IsSegment script.now (replay.old.place + 1) replay.new.place) }
    ensures found { OnOk result (Each (HasFound script.now hits.now replay.new.place) walks.new) }
{
    let epoch = replay.epoch() as u32;
    replay.take_op(script);
    if !has_exclusive(replay.tree()) {
        take_quiet(script, replay);
        return Ok(());
    }
    take_segment(alloc, walks, script, hits, replay)?;
    close_all(alloc, walks, script, epoch)?;
    Ok(())
}

// Adds the windows that begin at the flushes from the next op on, which is one.
fn push_flushes(
    alloc: Global,
    script: &PairScript,
    hits: &Hits,
    replay: &mut Replay,
    walks: &mut [DomainWalk],
) -> Result<(), NoMemory>
    requires walk { CanWalk script.now hits.now }
    requires one_each { length walks.old ≡ script.now.machines.machine.domains }
    requires taken { HasTaken script.now replay.old }
    requires segment { IsSegment script.now 0 replay.old.place }
    requires found { Each (HasFound script.now hits.now replay.old.place) walks.old }
    ensures { OnOk result (Each (HasFound script.now hits.now (length script.now.ops)) walks.new) }
{
    while replay.place() < script.ops().len() {
        push_flush(alloc, script, hits, replay, walks)?;
    }
    Ok(())
}

// Adds these windows.
fn push_windows(all: &mut Vec<JointWindow>, windows: &[JointWindow]) -> Result<(), NoMemory>
    ensures { OnOk result (all.new.items ≡ all.old.items ++ windows.now) }
{
    for window in windows {
        all.push(*window)?;
    }
    Ok(())
}

// The windows of all domains, in order.
fn windows_of(alloc: Global, walks: &[DomainWalk]) -> Result<Vec<JointWindow>, NoMemory>
    ensures { IfOk result (λ windows. windows.items ≡ flat_map (λ (w : DomainWalkValue). w.windows.items) walks.now) }
{
    let mut windows: Vec<JointWindow> = Vec::new(alloc);
    for walk in walks {
        push_windows(&mut windows, &walk.windows)?;
    }
    Ok(windows)
}

// The windows of these domains, of which none was found yet. The tree is played once more for all of them.
fn find_windows(
    alloc: Global,
    script: &PairScript,
    hits: &Hits,
    walks: &mut [DomainWalk],
) -> Result<Vec<JointWindow>, NoMemory>
    requires walk { CanWalk script.now hits.now }
    requires one_each { length walks.old ≡ script.now.machines.machine.domains }
    requires fresh { Each IsFresh walks.old }
    ensures { IfOk result (λ windows. (j : LevelJournalsValue) → IsPlayedOnLevels script.now j → AreHits script.now First j.l2 hits.now.l2.items → AreHits script.now Second j.l3 hits.now.l3.items
        → windows.items ≡ joint_windows script.now j) }
{
    let mut replay = Replay::create(alloc, script)?;
    take_quiet(script, &mut replay);
    push_flushes(alloc, script, hits, &mut replay, walks)?;
    let windows = windows_of(alloc, walks)?;
    Ok(windows)
}

/// The windows of a run with two levels in which a group is exclusive, with the same masks in an L3 domain and in the L2 domains that
/// lie in it, after a flush, and uses lines: by L3 domain, by the position of the flush, and by group in order of creation (this
/// project's profile).
///
/// Where no command writes the mode exclusive, there are none, and the ops are looked at once. Else the tree is played once more, for
/// all L3 domains together, and the uses after a flush at which groups are exclusive are walked some times, whatever the number of
/// groups, as `private_lru` says.
pub fn joint_windows(
    alloc: Global,
    script: &PairScript,
    journals: &LevelJournalsRef<'_>,
) -> Result<Vec<JointWindow>, NoMemory>
    requires { IsPlayedOnLevels script.now (journals_in journals.now) }
    ensures { IfOk result (λ windows. windows.items ≡ joint_windows script.now (journals_in journals.now)) }
{
    if !has_exclusive_write(script) {
        return Ok(Vec::new(alloc));
    }
    let l2 = hits_on(alloc, script, Side::First, journals.l2)?;
    let l3 = hits_on(alloc, script, Side::Second, journals.l3)?;
    let hits = Hits { l2, l3 };
    let mut walks = fresh_walks(alloc, script.machine().domains)?;
    let windows = find_windows(alloc, script, &hits, &mut walks)?;
    Ok(windows)
}
