//! A keeper that keeps all.
ghost use Rattle.std.specs.Prelude.{◌≡◌};
ghost use Rattle.journal_text.specs.States.{journals_in, nothing_read};
ghost use Rattle.journal_text.specs.Kept.{parts_in};

use crate::keeper::Keeper;
use crate::weighed_script::WeighedScript;
use cache_core::SliceEntry;
use rc_base::NoMemory;
use run_law::{Journals, TreeEntry};
use script_ops::Script;
use std::alloc::Global;
use std::mem;

/// The commands that were read, the entries of the whole slices, and those of the slice that is being read.
#[derive(Drop)]
pub struct KeptJournals {
    pub(crate) tree: Vec<TreeEntry>,
    pub(crate) slices: Vec<Vec<SliceEntry>>,
    pub(crate) entries: Vec<SliceEntry>,
}

impl KeptJournals {
    /// Nothing was read. It takes no memory.
    pub fn create(alloc: Global) -> KeptJournals
        ensures { parts_in result ≡ nothing_read }
    {
        KeptJournals {
            tree: Vec::new(alloc),
            slices: Vec::new(alloc),
            entries: Vec::new(alloc),
        }
    }

    /// The journals that were read, where the text is over. It takes no memory.
    pub fn into_journals(self) -> Journals
        ensures { result ≡ journals_in (parts_in self) }
    {
        let KeptJournals {
            tree,
            slices,
            entries: _,
        } = self;
        Journals::of(tree, slices)
    }
}

impl Keeper for KeptJournals {
    ghost keeps = { λ kept script parts. parts ≡ parts_in kept };

    fn add_command(&mut self, _script: &Script, entry: TreeEntry) -> Result<(), NoMemory> {
        self.tree.push(entry)?;
        Ok(())
    }

    fn add_entry(&mut self, _script: &Script, entry: SliceEntry) -> Result<(), NoMemory> {
        self.entries.push(entry)?;
        Ok(())
    }

    fn end_slice(&mut self, alloc: Global, _weighed: &WeighedScript<'_>) -> Result<(), NoMemory> {
        let entries = mem::replace(&mut self.entries, Vec::new(alloc));
        self.slices.push(entries)?;
        Ok(())
    }
}
