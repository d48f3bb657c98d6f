//! One L3 domain, while the ops of a script are taken.
ghost use Rattle.std.specs.Prelude.{◌≡◌, ℕ, ◌+◌, ◌^◌, ◌<◌, ◌≤◌, IfOk, OnOk, false, length};
ghost use Rattle.pair_law.specs.Epochs.{state_at};
ghost use Rattle.pair_text.specs.Values.{PairScriptValue, epoch_at, op_at};
ghost use Rattle.pair_law.specs.JointWindows.{is_flush};
ghost use Rattle.pair_windows.specs.DomainWalks.{Each, HasFound, HasWalked, IsFresh, IsSmall};
ghost use Rattle.pair_windows.specs.Replays.{HasTaken, IsPlayable};
ghost use Rattle.pair_windows.specs.Segments.{CanWalk};
ghost use Rattle.pair_windows.specs.declared.segments.Hits.{Hits as HitsValue};

use crate::Replay;
use crate::joint_window::JointWindow;
use crate::level_spans::{LevelState, level_spans};
use crate::segments::{Hits, Segment, push_op};
use pair_text::PairScript;
use pair_tree::PairTree;
use private_lru::keep_on;
use rc_base::NoMemory;
use std::alloc::Global;

/// An L3 domain: its windows that begin before a flush, and what stands after the flush.
#[derive(Drop)]
pub(crate) struct DomainWalk {
    /// The domain, from 0.
    pub domain: u8,
    /// What stands after the flush.
    pub segment: Segment,
    /// The windows.
    pub windows: Vec<JointWindow>,
}

/// The walks of so many domains, without windows.
pub(crate) fn fresh_walks(alloc: Global, domains: u8) -> Result<Vec<DomainWalk>, NoMemory>
    ensures count { IfOk result (λ walks. length walks.items ≡ domains) }
    ensures fresh { IfOk result (λ walks. Each IsFresh walks.items) }
{
    let mut walks = Vec::new(alloc);
    for domain in 0..domains {
        let segment = Segment {
            held: Vec::new(alloc),
            l2: Vec::new(alloc),
            l3: Vec::new(alloc),
        };
        walks.push(DomainWalk {
            domain,
            segment,
            windows: Vec::new(alloc),
        })?;
    }
    Ok(walks)
}

/// Begins what stands after a flush: the groups that are exclusive then.
pub(crate) fn begin(alloc: Global, walk: &mut DomainWalk, replay: &Replay) -> Result<(), NoMemory>
    requires small { IsSmall walk.old }
    ensures small { OnOk result (IsSmall walk.new) }
    ensures begun { OnOk result ((s : PairScriptValue) (hits : HitsValue) (from domain : ℕ) → HasTaken s replay.now → replay.now.place ≡ from + 1 → HasFound s hits from domain walk.old
        → HasWalked s hits from replay.now.tree.epoch replay.now.place domain walk.new) }
{
    walk.segment = Segment {
        held: level_spans(alloc, replay.tree(), walk.domain, replay.epoch())?,
        l2: Vec::new(alloc),
        l3: Vec::new(alloc),
    };
    Ok(())
}

/// Adds the next op, which is no flush, where it is a use on a CPU of the domain.
pub(crate) fn push_next(
    walk: &mut DomainWalk,
    script: &PairScript,
    hits: &Hits,
    replay: &Replay,
) -> Result<(), NoMemory>
    requires walk { CanWalk script.now hits.now }
    requires taken { HasTaken script.now replay.now }
    requires within { replay.now.place < length script.now.ops }
    requires quiet { is_flush (op_at script.now replay.now.place) ≡ false }
    requires small { IsSmall walk.old }
    ensures small { OnOk result (IsSmall walk.new) }
    ensures walked { OnOk result ((from epoch domain : ℕ) → from < replay.now.place → HasWalked script.now hits.now from epoch replay.now.place domain walk.old
        → HasWalked script.now hits.now from epoch (replay.now.place + 1) domain walk.new) }
{
    push_op(&mut walk.segment, script, walk.domain, hits, replay)?;
    Ok(())
}

/// Takes the spans to the epoch after this one, which is that of a tree.
pub(crate) fn keep(walk: &mut DomainWalk, script: &PairScript, tree: &PairTree, epoch: u64)
    requires playable { IsPlayable script.now }
    requires epoch { epoch + 1 < 2 ^ 64 }
    requires state { tree.now.state ≡ state_at script.now (epoch + 1) }
    requires small { IsSmall walk.old }
    ensures small { IsSmall walk.new }
    ensures walked { (hits : HitsValue) (from place domain : ℕ) → epoch_at script.now (from + 1) ≤ epoch → HasWalked script.now hits from epoch place domain walk.old
        → HasWalked script.now hits from (epoch + 1) place domain walk.new }
{
    let state = LevelState {
        script,
        tree,
        domain: walk.domain,
    };
    keep_on(&mut walk.segment.held, &state, epoch);
}
