//! Four slots.
ghost use Rattle.std.specs.Prelude.{◌≡◌, ◌+◌};

use crate::access::Hold;
use crate::fill::Fill;
use crate::parts::Part;
use crate::run_names::{NamedTable, RunNames};
use crate::slice_slot::SliceSlot;
use crate::slice_slots::SliceSlots;
use crate::slot_pair::SlotPair;
use crate::thread_side::ThreadSide;
use crate::turn::{CommandFollow, CommandLook, TaggedAccess};
use run_law::TreeEntry;
use seen_journal::Journal;
use std::sync::Wait;
use step_world::Reached;

/// The slots of four slices. A type of its own, since what stands on a pair of pairs ties the impls of them all.
#[derive(Drop)]
pub struct FourSlots<
    N: RunNames,
    T: NamedTable,
    const A: usize,
    const B: usize,
    const C: usize,
    const D: usize,
> {
    slots: SlotPair<
        SlotPair<SliceSlot<N, T, A>, SliceSlot<N, T, B>>,
        SlotPair<SliceSlot<N, T, C>, SliceSlot<N, T, D>>,
    >,
}

impl<
    N: RunNames,
    T: NamedTable,
    const A: usize,
    const B: usize,
    const C: usize,
    const D: usize,
> SliceSlots<N, T> for FourSlots<N, T, A, B, C, D> {
    ghost first = { A };

    ghost last = { D };

    ghost joined = { (A + 1 ≡ B) × (B + 1 ≡ C) × (C + 1 ≡ D) };

    fn look<R: Wait>(
        &self,
        rt: &R,
        history: &mut Journal<TreeEntry>,
        side: &mut ThreadSide<N>,
        look: CommandLook,
    ) -> u64 {
        self.slots.look(rt, history, side, look)
    }

    fn follow<R: Wait>(
        &self,
        rt: &R,
        history: &mut Journal<TreeEntry>,
        side: &mut ThreadSide<N>,
        step: CommandFollow,
    ) {
        self.slots.follow(rt, history, side, step);
    }

    fn touch<R: Wait, H: Hold>(
        &self,
        rt: &R,
        hold: &H,
        side: &mut ThreadSide<N>,
        access: &TaggedAccess,
    ) -> Option<Reached> {
        self.slots.touch(rt, hold, side, access)
    }

    fn last() -> usize {
        D
    }
}

impl<
    N: RunNames,
    T: NamedTable,
    const A: usize,
    const B: usize,
    const C: usize,
    const D: usize,
> Fill<N, T> for FourSlots<N, T, A, B, C, D> {
    ghost first = { A };

    ghost last = { D };

    ghost joined = { (A + 1 ≡ B) × (B + 1 ≡ C) × (C + 1 ≡ D) };

    fn open(parts: &mut Vec<Part<N>>) -> Self {
        FourSlots {
            slots: SlotPair::<
                SlotPair<SliceSlot<N, T, A>, SliceSlot<N, T, B>>,
                SlotPair<SliceSlot<N, T, C>, SliceSlot<N, T, D>>,
            >::open(parts),
        }
    }

    fn settle(self, history: &mut Journal<TreeEntry>, into: &mut Vec<Part<N>>) {
        let FourSlots { slots } = self;
        slots.settle(history, into);
    }
}
