//! Slots for slices, side by side.
ghost use Rattle.std.specs.Prelude.{◌≡◌, ℕ, ◌+◌, ◌<◌, ◌≤◌};
ghost use Rattle.cache_core.specs.Stands.{entry as entry_of};
ghost use Rattle.cache_core.specs.declared.entry.What.TheVariants.{Look};
ghost use Rattle.live_run.specs.Sharing.{HasFollowedOn, HasReached, HasStepped, IsNextCount, IsNextFollow, IsTagged};
ghost use Rattle.live_run.specs.Steps.{HasAdded, HasFollowed, HasTouched};
ghost use Rattle.live_run.specs.Visits.{MayFollow, MayLook, MayTouch};
ghost use Rattle.machine.specs.Slices.{slice_count};
ghost use Rattle.schedule_law.specs.declared.part.Happening.TheVariants as happenings;

use crate::access::Hold;
use crate::run_names::{NamedTable, RunNames};
use crate::thread_side::ThreadSide;
use crate::turn::{CommandFollow, CommandLook, TaggedAccess};
use run_law::TreeEntry;
use seen_journal::Journal;
use std::sync::Wait;
use step_world::Reached;

/// Slots for slices, by their numbers over all domains, each under a lock of its own. Those past the machine's slices are empty.
pub trait SliceSlots<N: RunNames, T: NamedTable> {
    /// The number of the first.
    ghost first: { ℕ };

    /// The number of the last.
    ghost last: { ℕ };

    /// Each has the number after that of the one before it.
    ghost joined: { Type 0 };

    /// Counts the lines of an RMID for the command that holds the tree, in the slice of a number.
    fn look<R: Wait>(
        &self,
        rt: &R,
        history: &mut Journal<TreeEntry>,
        side: &mut ThreadSide<N>,
        look: CommandLook,
    ) -> u64
        requires joined { joined }
        requires from { first ≤ look.slice }
        requires to { look.slice ≤ last }
        requires number { look.slice < slice_count N.script.machine }
        requires may { MayLook N.script N.tree look.slice look.number look.epoch look.rmid history.old side.old.seen }
        requires next { IsNextCount N.script T.table look.slice look.number look.rmid history.old side.old.seen side.old.share }
        ensures few { result ≤ 2097152 }
        ensures history { history.new ≡ history.old }
        ensures tree { side.new.seen.tree ≡ side.old.seen.tree }
        ensures added { HasAdded look.slice (entry_of side.old.seen.thread look.number look.epoch (Look look.rmid result)) side.old.seen side.new.seen }
        ensures worker { HasStepped (happenings.Look (entry_of side.old.seen.thread look.number look.epoch (Look look.rmid result))) side.old.share side.new.share };

    /// Does what follows the command that holds the tree, in the slice of a number.
    fn follow<R: Wait>(
        &self,
        rt: &R,
        history: &mut Journal<TreeEntry>,
        side: &mut ThreadSide<N>,
        step: CommandFollow,
    )
        requires joined { joined }
        requires from { first ≤ step.slice }
        requires to { step.slice ≤ last }
        requires number { step.slice < slice_count N.script.machine }
        requires may { MayFollow N.script N.tree step.slice step.number step.epoch step.follow history.old side.old.seen }
        requires next { IsNextFollow N.script T.table step.slice step.number step.epoch step.follow step.is_last history.old side.old.seen side.old.share }
        ensures history { history.new ≡ history.old }
        ensures tree { side.new.seen.tree ≡ side.old.seen.tree }
        ensures followed { HasFollowed step.slice step.number step.epoch step.follow side.old.seen side.new.seen }
        ensures worker { HasFollowedOn step.is_last side.old.share side.new.share };

    /// Makes the access of a tag in the slice of a number, unless the tag is stale.
    fn touch<R: Wait, H: Hold>(
        &self,
        rt: &R,
        hold: &H,
        side: &mut ThreadSide<N>,
        access: &TaggedAccess,
    ) -> Option<Reached>
        requires joined { joined }
        requires from { first ≤ access.now.slice }
        requires to { access.now.slice ≤ last }
        requires number { access.now.slice < slice_count N.script.machine }
        requires may { MayTouch N.script access.now.slice access.now.number access.now.tag access.now.line side.old.seen }
        requires tagged { IsTagged N.script T.table access.now.slice access.now.number access.now.tag access.now.line side.old.seen side.old.share }
        ensures touched { HasTouched access.now.slice access.now.number access.now.tag access.now.line side.old.seen side.new.seen result }
        ensures cached { side.new.cached ≡ side.old.cached }
        ensures worker { HasReached side.old.seen.thread access.now.number access.now.tag access.now.line result side.old.share side.new.share };

    /// The number of the last.
    fn last() -> usize
        ensures { result ≡ last };
}
