//! What happened in a run: the commands that the tree took, and the entries of each slice.
ghost use Rattle.std.specs.Prelude.{◌≡◌, ◌<◌, length, map};
ghost use Rattle.run_law.specs.Entries.{entries_of, entry_value};
ghost use Rattle.run_law.specs.Journals.{slice_at};

use cache_core::SliceEntry;
use rc_base::{LookList, Reply};
use std::marker::Model;

/// A command that the tree took.
#[derive(Drop)]
pub struct TreeEntry {
    /// The thread, counted from 0 through the whole script.
    pub thread: u32,
    /// The number of the op in its thread, from 0.
    pub op: u32,
    /// What the command answered.
    pub reply: Reply,
    /// The counts of lines that the command was given.
    pub looks: LookList,
}

/// The journals of a run. Contracts see the tree's history, and by `domain * slices + slice` that of each slice.
#[derive(Drop)]
pub struct Journals {
    tree: Vec<TreeEntry>,
    slices: Vec<Vec<SliceEntry>>,
}

impl Model for Journals {
    ghost use Rattle.std.specs.Prelude.{map};
    ghost use Rattle.run_law.specs.Entries.{entries_of, entry_value};
    ghost use Rattle.run_law.specs.Journals.{JournalsValue};

    ghost Value = { JournalsValue };

    ghost view = { λ j. record { tree = map entry_value j.tree.items; slices = map entries_of j.slices.items } };
}

impl Journals {
    /// The journals of these lists. It takes no memory.
    pub fn of(tree: Vec<TreeEntry>, slices: Vec<Vec<SliceEntry>>) -> Journals
        ensures tree { result.tree ≡ map entry_value tree.items }
        ensures slices { result.slices ≡ map entries_of slices.items }
    {
        Journals { tree, slices }
    }

    /// The lists that the journals were made of. It takes no memory.
    pub fn into_parts(self) -> (Vec<TreeEntry>, Vec<Vec<SliceEntry>>)
        ensures tree { map entry_value result.0.items ≡ self.tree }
        ensures slices { map entries_of result.1.items ≡ self.slices }
    {
        (self.tree, self.slices)
    }

    /// The commands that the tree took, in order.
    pub fn tree(&self) -> &[TreeEntry]
        ensures { map entry_value result.now ≡ self.now.tree }
    {
        self.tree.as_slice()
    }

    /// The entries of a slice, by its number over all domains.
    pub fn slice(&self, i: u32) -> &[SliceEntry]
        requires { i < length self.now.slices }
        ensures { result.now ≡ slice_at self.now i }
    {
        self.slices[i as usize].as_slice()
    }
}
