//! Slots for slices are filled and emptied.
ghost use Rattle.std.specs.Prelude.{◌≡◌, ℕ, ◌+◌, ◌≤◌, vec_capacity};
ghost use Rattle.live_run.specs.Cells.{AreOfThreads, taken_from};
ghost use Rattle.live_run.specs.Openings.{AreParts, AreSettled};
ghost use Rattle.machine.specs.Slices.{slice_count};

use crate::parts::Part;
use crate::run_names::{NamedTable, RunNames};
use run_law::TreeEntry;
use seen_journal::Journal;

/// Slots for slices, by their numbers over all domains, before and after a run.
pub trait Fill<N: RunNames, T: NamedTable> {
    /// The number of the first.
    ghost first: { ℕ };

    /// The number of the last.
    ghost last: { ℕ };

    /// Each has the number after that of the one before it.
    ghost joined: { Type 0 };

    /// Filled with what goes into the cells of the slices from the first on, the last slice first.
    fn open(parts: &mut Vec<Part<N>>) -> Self
        requires joined { joined }
        requires parts { AreParts N.script T.table N.tree N.slices first parts.old.items }
        ensures { AreParts N.script T.table N.tree N.slices (last + 1) parts.new.items };

    /// Adds what is in the cells, in order. Each has seen the tree's whole history.
    fn settle(self, history: &mut Journal<TreeEntry>, into: &mut Vec<Part<N>>)
        requires joined { joined }
        requires name { history.old.name ≡ N.tree }
        requires threads { AreOfThreads taken_from history.old.entries }
        requires room { slice_count N.script.machine ≤ vec_capacity into.old }
        requires before { AreSettled N.script T.table N.tree N.slices history.old.entries first into.old.items }
        ensures history { history.new ≡ history.old }
        ensures room { vec_capacity into.new ≡ vec_capacity into.old }
        ensures after { AreSettled N.script T.table N.tree N.slices history.old.entries (last + 1) into.new.items };
}
