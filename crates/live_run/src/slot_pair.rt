//! Slots that stand after others.
ghost use Rattle.std.specs.Prelude.{◌≡◌, ◌+◌};

use crate::access::Hold;
use crate::fill::Fill;
use crate::parts::Part;
use crate::run_names::{NamedTable, RunNames};
use crate::slice_slots::SliceSlots;
use crate::thread_side::ThreadSide;
use crate::turn::{CommandFollow, CommandLook, TaggedAccess};
use run_law::TreeEntry;
use seen_journal::Journal;
use std::sync::Wait;
use step_world::Reached;

/// Two slots or rows of slots, the second after the first.
#[derive(Drop)]
pub struct SlotPair<A, B> {
    front: A,
    back: B,
}

impl<A, B> SlotPair<A, B> {
    /// These slots, and those after them.
    pub(crate) fn new(front: A, back: B) -> SlotPair<A, B> {
        SlotPair { front, back }
    }

    /// The slots, and those after them.
    pub(crate) fn parted(self) -> (A, B) {
        let SlotPair { front, back } = self;
        (front, back)
    }
}

impl<N: RunNames, T: NamedTable, A: SliceSlots<N, T>, B: SliceSlots<N, T>> SliceSlots<N, T>
    for SlotPair<A, B> {
    ghost first = { A.first };

    ghost last = { B.last };

    ghost joined = { A.joined × B.joined × (A.last + 1 ≡ B.first) };

    fn look<R: Wait>(
        &self,
        rt: &R,
        history: &mut Journal<TreeEntry>,
        side: &mut ThreadSide<N>,
        look: CommandLook,
    ) -> u64 {
        if look.slice <= A::last() {
            self.front.look(rt, history, side, look)
        } else {
            self.back.look(rt, history, side, look)
        }
    }

    fn follow<R: Wait>(
        &self,
        rt: &R,
        history: &mut Journal<TreeEntry>,
        side: &mut ThreadSide<N>,
        step: CommandFollow,
    ) {
        if step.slice <= A::last() {
            self.front.follow(rt, history, side, step);
        } else {
            self.back.follow(rt, history, side, step);
        }
    }

    fn touch<R: Wait, H: Hold>(
        &self,
        rt: &R,
        hold: &H,
        side: &mut ThreadSide<N>,
        access: &TaggedAccess,
    ) -> Option<Reached> {
        if access.slice <= A::last() {
            self.front.touch(rt, hold, side, access)
        } else {
            self.back.touch(rt, hold, side, access)
        }
    }

    fn last() -> usize {
        B::last()
    }
}

impl<N: RunNames, T: NamedTable, A: Fill<N, T>, B: Fill<N, T>> Fill<N, T> for SlotPair<A, B> {
    ghost first = { A.first };

    ghost last = { B.last };

    ghost joined = { A.joined × B.joined × (A.last + 1 ≡ B.first) };

    fn open(parts: &mut Vec<Part<N>>) -> Self {
        let front = A::open(parts);
        let back = B::open(parts);
        SlotPair { front, back }
    }

    fn settle(self, history: &mut Journal<TreeEntry>, into: &mut Vec<Part<N>>) {
        let SlotPair { front, back } = self;
        front.settle(history, into);
        back.settle(history, into);
    }
}
