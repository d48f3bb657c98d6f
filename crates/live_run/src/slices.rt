//! The slices of all domains.
ghost use Rattle.std.specs.Prelude.{◌≡◌, ◌<◌, ◌≤◌, [], vec_capacity};
ghost use Rattle.cache_core.specs.Stands.{entry as entry_of};
ghost use Rattle.cache_core.specs.declared.entry.What.TheVariants.{Look};
ghost use Rattle.live_run.specs.Cells.{AreOfThreads, taken_from};
ghost use Rattle.live_run.specs.Openings.{AreParts, AreSettled};
ghost use Rattle.live_run.specs.Sharing.{HasFollowedOn, HasReached, HasStepped, IsNextCount, IsNextFollow, IsTagged};
ghost use Rattle.live_run.specs.Steps.{HasAdded, HasFollowed, HasTouched};
ghost use Rattle.live_run.specs.Visits.{MayFollow, MayLook, MayTouch};
ghost use Rattle.machine.specs.Slices.{slice_count};
ghost use Rattle.schedule_law.specs.declared.part.Happening.TheVariants as happenings;

use crate::access::Hold;
use crate::fill::Fill;
use crate::four_slots::FourSlots;
use crate::parts::Part;
use crate::run_names::{NamedTable, RunNames};
use crate::slice_slots::SliceSlots;
use crate::slot_pair::SlotPair;
use crate::thread_side::ThreadSide;
use crate::turn::{CommandFollow, CommandLook, TaggedAccess};
use run_law::TreeEntry;
use seen_journal::Journal;
use std::marker::Model;
use std::sync::Wait;
use step_world::Reached;

// The slots of slices 0 to 15, and of 16 to 31.
type LowerSlots<N, T> = SlotPair<
    SlotPair<FourSlots<N, T, 0, 1, 2, 3>, FourSlots<N, T, 4, 5, 6, 7>>,
    SlotPair<FourSlots<N, T, 8, 9, 10, 11>, FourSlots<N, T, 12, 13, 14, 15>>,
>;

type UpperSlots<N, T> = SlotPair<
    SlotPair<FourSlots<N, T, 16, 17, 18, 19>, FourSlots<N, T, 20, 21, 22, 23>>,
    SlotPair<FourSlots<N, T, 24, 25, 26, 27>, FourSlots<N, T, 28, 29, 30, 31>>,
>;

/// The slices of all domains, each under a lock of its own. A machine has at most 32.
/// Contracts see how many the machine has.
#[derive(Drop)]
pub struct Slices<N: RunNames, T: NamedTable> {
    slots: SlotPair<LowerSlots<N, T>, UpperSlots<N, T>>,
}

impl<N: RunNames, T: NamedTable> Model for Slices<N, T> {
    ghost use Rattle.std.specs.Prelude.{ℕ, ◌≤◌};
    ghost use Rattle.machine.specs.Slices.{slice_count};

    ghost Value = { ℕ };

    ghost view = { λ s. slice_count N.script.machine };

    ghost invariant = { λ s. slice_count N.script.machine ≤ 32 };
}

impl<N: RunNames, T: NamedTable> Slices<N, T> {
    /// Filled with what goes into the cells of all slices, the last slice first.
    pub(crate) fn open(parts: &mut Vec<Part<N>>) -> Slices<N, T>
        requires few { slice_count N.script.machine ≤ 32 }
        requires parts { AreParts N.script T.table N.tree N.slices 0 parts.old.items }
    {
        // One after the other: what is known of a call on all slots at once is too large to be checked.
        let slots_0 = FourSlots::<N, T, 0, 1, 2, 3>::open(parts);
        let slots_4 = FourSlots::<N, T, 4, 5, 6, 7>::open(parts);
        let slots_8 = FourSlots::<N, T, 8, 9, 10, 11>::open(parts);
        let slots_12 = FourSlots::<N, T, 12, 13, 14, 15>::open(parts);
        let slots_16 = FourSlots::<N, T, 16, 17, 18, 19>::open(parts);
        let slots_20 = FourSlots::<N, T, 20, 21, 22, 23>::open(parts);
        let slots_24 = FourSlots::<N, T, 24, 25, 26, 27>::open(parts);
        let slots_28 = FourSlots::<N, T, 28, 29, 30, 31>::open(parts);
        Slices {
            slots: SlotPair::new(
                SlotPair::new(
                    SlotPair::new(slots_0, slots_4),
                    SlotPair::new(slots_8, slots_12),
                ),
                SlotPair::new(
                    SlotPair::new(slots_16, slots_20),
                    SlotPair::new(slots_24, slots_28),
                ),
            ),
        }
    }

    /// Adds what is in the cells of all slices, in order. Each has seen the tree's whole history.
    pub(crate) fn settle(self, history: &mut Journal<TreeEntry>, into: &mut Vec<Part<N>>)
        requires name { history.old.name ≡ N.tree }
        requires threads { AreOfThreads taken_from history.old.entries }
        requires empty { into.old.items ≡ [] }
        requires room { slice_count N.script.machine ≤ vec_capacity into.old }
        ensures history { history.new ≡ history.old }
        ensures after { AreSettled N.script T.table N.tree N.slices history.old.entries (slice_count N.script.machine) into.new.items }
    {
        let Slices { slots } = self;
        let (lower, upper) = slots.parted();
        let (first, second) = lower.parted();
        let (third, fourth) = upper.parted();
        let (front, back) = first.parted();
        front.settle(history, into);
        back.settle(history, into);
        let (front, back) = second.parted();
        front.settle(history, into);
        back.settle(history, into);
        let (front, back) = third.parted();
        front.settle(history, into);
        back.settle(history, into);
        let (front, back) = fourth.parted();
        front.settle(history, into);
        back.settle(history, into);
    }

    /// Counts the lines of an RMID for the command that holds the tree, in the slice of a number.
    pub(crate) fn look(
        &self,
        rt: &impl Wait,
        history: &mut Journal<TreeEntry>,
        side: &mut ThreadSide<N>,
        look: CommandLook,
    ) -> u64
        requires number { look.slice < slice_count N.script.machine }
        requires may { MayLook N.script N.tree look.slice look.number look.epoch look.rmid history.old side.old.seen }
        requires next { IsNextCount N.script T.table look.slice look.number look.rmid history.old side.old.seen side.old.share }
        ensures few { result ≤ 2097152 }
        ensures history { history.new ≡ history.old }
        ensures tree { side.new.seen.tree ≡ side.old.seen.tree }
        ensures added { HasAdded look.slice (entry_of side.old.seen.thread look.number look.epoch (Look look.rmid result)) side.old.seen side.new.seen }
        ensures worker { HasStepped (happenings.Look (entry_of side.old.seen.thread look.number look.epoch (Look look.rmid result))) side.old.share side.new.share }
    {
        self.slots.look(rt, history, side, look)
    }

    /// Does what follows the command that holds the tree, in the slice of a number.
    pub(crate) fn follow(
        &self,
        rt: &impl Wait,
        history: &mut Journal<TreeEntry>,
        side: &mut ThreadSide<N>,
        step: CommandFollow,
    )
        requires number { step.slice < slice_count N.script.machine }
        requires may { MayFollow N.script N.tree step.slice step.number step.epoch step.follow history.old side.old.seen }
        requires next { IsNextFollow N.script T.table step.slice step.number step.epoch step.follow step.is_last history.old side.old.seen side.old.share }
        ensures history { history.new ≡ history.old }
        ensures tree { side.new.seen.tree ≡ side.old.seen.tree }
        ensures followed { HasFollowed step.slice step.number step.epoch step.follow side.old.seen side.new.seen }
        ensures worker { HasFollowedOn step.is_last side.old.share side.new.share }
    {
        self.slots.follow(rt, history, side, step);
    }

    /// Makes the access of a tag in the slice of a number, unless the tag is stale.
    pub(crate) fn touch(
        &self,
        rt: &impl Wait,
        hold: &impl Hold,
        side: &mut ThreadSide<N>,
        access: &TaggedAccess,
    ) -> Option<Reached>
        requires number { access.now.slice < slice_count N.script.machine }
        requires may { MayTouch N.script access.now.slice access.now.number access.now.tag access.now.line side.old.seen }
        requires tagged { IsTagged N.script T.table access.now.slice access.now.number access.now.tag access.now.line side.old.seen side.old.share }
        ensures touched { HasTouched access.now.slice access.now.number access.now.tag access.now.line side.old.seen side.new.seen result }
        ensures cached { side.new.cached ≡ side.old.cached }
        ensures worker { HasReached side.old.seen.thread access.now.number access.now.tag access.now.line result side.old.share side.new.share }
    {
        self.slots.touch(rt, hold, side, access)
    }
}
