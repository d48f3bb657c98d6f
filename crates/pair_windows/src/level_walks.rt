//! All L3 domains, while the ops of a script are taken once.
ghost use Rattle.std.specs.Prelude.{◌≡◌, ℕ, ◌+◌, ◌^◌, ◌<◌, ◌≤◌, All, OnOk, false, length};
ghost use Rattle.pair_law.specs.Epochs.{state_at};
ghost use Rattle.pair_text.specs.Values.{PairScriptValue, epoch_at, op_at};
ghost use Rattle.pair_law.specs.JointWindows.{is_flush};
ghost use Rattle.pair_windows.specs.DomainWalks.{Each, HasFound, HasWalked, IsSmall};
ghost use Rattle.pair_windows.specs.Replays.{HasTaken, IsPlayable};
ghost use Rattle.pair_windows.specs.Segments.{CanWalk, IsSegment};
ghost use Rattle.pair_windows.specs.declared.segments.Hits.{Hits as HitsValue};

use crate::Replay;
use crate::domain_walks::{DomainWalk, begin, keep, push_next};
use crate::segments::{Hits, is_end};
use pair_text::PairScript;
use pair_tree::PairTree;
use rc_base::NoMemory;
use std::alloc::Global;

// Begins what stands after a flush in each domain.
fn begin_all(alloc: Global, walks: &mut [DomainWalk], replay: &Replay) -> Result<(), NoMemory>
    requires small { All IsSmall walks.old }
    ensures small { OnOk result (All IsSmall walks.new) }
    ensures begun { OnOk result ((s : PairScriptValue) (hits : HitsValue) (from : ℕ) → HasTaken s replay.now → replay.now.place ≡ from + 1 → Each (HasFound s hits from) walks.old
        → Each (HasWalked s hits from replay.now.tree.epoch replay.now.place) walks.new) }
{
    for walk in walks {
        begin(alloc, walk, replay)?;
    }
    Ok(())
}

// Adds the next op, which is no flush, in each domain.
fn push_all(
    walks: &mut [DomainWalk],
    script: &PairScript,
    hits: &Hits,
    replay: &Replay,
) -> Result<(), NoMemory>
    requires walk { CanWalk script.now hits.now }
    requires taken { HasTaken script.now replay.now }
    requires within { replay.now.place < length script.now.ops }
    requires quiet { is_flush (op_at script.now replay.now.place) ≡ false }
    requires small { All IsSmall walks.old }
    ensures small { OnOk result (All IsSmall walks.new) }
    ensures walked { OnOk result ((from epoch : ℕ) → from < replay.now.place → Each (HasWalked script.now hits.now from epoch replay.now.place) walks.old
        → Each (HasWalked script.now hits.now from epoch (replay.now.place + 1)) walks.new) }
{
    for walk in walks {
        push_next(walk, script, hits, replay)?;
    }
    Ok(())
}

// Takes the spans of each domain to the epoch after this one, which is that of a tree.
fn keep_all(walks: &mut [DomainWalk], script: &PairScript, tree: &PairTree, epoch: u64)
    requires playable { IsPlayable script.now }
    requires epoch { epoch + 1 < 2 ^ 64 }
    requires state { tree.now.state ≡ state_at script.now (epoch + 1) }
    requires small { All IsSmall walks.old }
    ensures small { All IsSmall walks.new }
    ensures walked { (hits : HitsValue) (from place : ℕ) → epoch_at script.now (from + 1) ≤ epoch → Each (HasWalked script.now hits from epoch place) walks.old
        → Each (HasWalked script.now hits from (epoch + 1) place) walks.new }
{
    for walk in walks {
        keep(walk, script, tree, epoch);
    }
}

// Takes an op, and where it is a command the spans of each domain to the next epoch.
fn take_op(walks: &mut [DomainWalk], script: &PairScript, replay: &mut Replay)
    requires playable { IsPlayable script.now }
    requires taken { HasTaken script.now replay.old }
    requires within { replay.old.place < length script.now.ops }
    requires small { All IsSmall walks.old }
    ensures taken { HasTaken script.now replay.new }
    ensures place { replay.new.place ≡ replay.old.place + 1 }
    ensures small { All IsSmall walks.new }
    ensures walked { (hits : HitsValue) (from place : ℕ) → epoch_at script.now (from + 1) ≤ replay.old.tree.epoch → Each (HasWalked script.now hits from replay.old.tree.epoch place) walks.old
        → Each (HasWalked script.now hits from replay.new.tree.epoch place) walks.new }
{
    let epoch = replay.epoch();
    replay.take_op(script);
    if replay.epoch() == epoch {
        return;
    }
    keep_all(walks, script, replay.tree(), epoch);
}

// Takes the ops up to the next flush.
fn take_ops(
    walks: &mut [DomainWalk],
    script: &PairScript,
    hits: &Hits,
    replay: &mut Replay,
) -> Result<(), NoMemory>
    requires walk { CanWalk script.now hits.now }
    requires taken { HasTaken script.now replay.old }
    requires within { replay.old.place ≤ length script.now.ops }
    requires small { All IsSmall walks.old }
    ensures taken { OnOk result (HasTaken script.now replay.new) }
    ensures segment { OnOk result (IsSegment script.now replay.old.place replay.new.place) }
    ensures small { OnOk result (All IsSmall walks.new) }
    ensures walked { OnOk result ((from : ℕ) → replay.old.place ≡ from + 1 → Each (HasWalked script.now hits.now from replay.old.tree.epoch replay.old.place) walks.old
        → Each (HasWalked script.now hits.now from replay.new.tree.epoch replay.new.place) walks.new) }
{
    while !is_end(script, replay.place()) {
        push_all(walks, script, hits, replay)?;
        take_op(walks, script, replay);
    }
    Ok(())
}

/// Takes the ops after a flush up to the next one, in each domain.
pub(crate) fn take_segment(
    alloc: Global,
    walks: &mut [DomainWalk],
    script: &PairScript,
    hits: &Hits,
    replay: &mut Replay,
) -> Result<(), NoMemory>
    requires walk { CanWalk script.now hits.now }
    requires taken { HasTaken script.now replay.old }
    requires within { replay.old.place ≤ length script.now.ops }
    requires small { All IsSmall walks.old }
    ensures taken { OnOk result (HasTaken script.now replay.new) }
    ensures segment { OnOk result (IsSegment script.now replay.old.place replay.new.place) }
    ensures walked { OnOk result ((from : ℕ) → replay.old.place ≡ from + 1 → Each (HasFound script.now hits.now from) walks.old
        → Each (HasWalked script.now hits.now from replay.new.tree.epoch replay.new.place) walks.new) }
{
    begin_all(alloc, walks, replay)?;
    take_ops(walks, script, hits, replay)?;
    Ok(())
}
