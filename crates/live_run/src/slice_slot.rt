//! The slot of one slice.

use crate::access::Hold;
use crate::fill::Fill;
use crate::locks::lock_soon;
use crate::parts::Part;
use crate::run_names::{NamedTable, RunNames};
use crate::slice::SliceCell;
use crate::slice_slots::SliceSlots;
use crate::thread_side::ThreadSide;
use crate::turn::{CommandFollow, CommandLook, TaggedAccess};
use run_law::TreeEntry;
use seen_journal::Journal;
use std::marker::Model;
use std::sync::{Mutex, Wait};
use step_world::Reached;

/// The slot of slice I, whose cell is there where the machine has the slice. Contracts see its number.
#[derive(Drop)]
pub struct SliceSlot<N: RunNames, T: NamedTable, const I: usize> {
    cell: Option<Mutex<SliceCell<N, T, I>>>,
}

impl<N: RunNames, T: NamedTable, const I: usize> Model for SliceSlot<N, T, I> {
    ghost use Rattle.std.specs.Prelude.{ℕ, ◌<◌, IsSome};
    ghost use Rattle.machine.specs.Slices.{slice_count};

    ghost Value = { ℕ };

    ghost view = { λ p. I };

    ghost invariant = { λ p. I < slice_count N.script.machine → IsSome p.cell };
}

impl<N: RunNames, T: NamedTable, const I: usize> SliceSlots<N, T> for SliceSlot<N, T, I> {
    ghost first = { I };

    ghost last = { I };

    ghost joined = { Unit {0} };

    fn look<R: Wait>(
        &self,
        rt: &R,
        history: &mut Journal<TreeEntry>,
        side: &mut ThreadSide<N>,
        look: CommandLook,
    ) -> u64 {
        let Some(cell) = &self.cell else {
            unreachable!()
        };
        lock_soon(cell, rt).look(history, side, look)
    }

    fn follow<R: Wait>(
        &self,
        rt: &R,
        history: &mut Journal<TreeEntry>,
        side: &mut ThreadSide<N>,
        step: CommandFollow,
    ) {
        let Some(cell) = &self.cell else {
            unreachable!()
        };
        lock_soon(cell, rt).follow(history, side, step);
    }

    fn touch<R: Wait, H: Hold>(
        &self,
        rt: &R,
        hold: &H,
        side: &mut ThreadSide<N>,
        access: &TaggedAccess,
    ) -> Option<Reached> {
        let Some(cell) = &self.cell else {
            unreachable!()
        };
        lock_soon(cell, rt).touch(hold, side, access)
    }

    fn last() -> usize {
        I
    }
}

impl<N: RunNames, T: NamedTable, const I: usize> Fill<N, T> for SliceSlot<N, T, I> {
    ghost first = { I };

    ghost last = { I };

    ghost joined = { Unit {0} };

    fn open(parts: &mut Vec<Part<N>>) -> Self {
        let cell = match parts.pop() {
            Some(part) => Some(Mutex::new(SliceCell::open(part))),
            None => None,
        };
        SliceSlot { cell }
    }

    fn settle(self, history: &mut Journal<TreeEntry>, into: &mut Vec<Part<N>>) {
        let SliceSlot { cell } = self;
        if let Some(cell) = cell {
            into.push_reserved(cell.into_inner().settle(history));
        }
    }
}
