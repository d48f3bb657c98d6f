//! A list, as it lies under its lock.
ghost use Rattle.std.specs.Prelude.{◌≡◌, ◌<◌, [], ◌∷◌, ◌++◌, IfOk};
ghost use Rattle.atomic_table.specs.Seated.{TableId};
ghost use Rattle.shared_parts.specs.Words.{word_of};
ghost use Rattle.live_tests.specs.Merged.{entry, part_of_list};

use crate::entry::Entry;
use crate::merged::Parts;
use crate::worker::Worker;
use std::alloc::{AllocError, Global};
use std::marker::{Brand, Model, PhantomData};

/// Names the table of a race.
pub trait Named {
    /// The table.
    ghost table: { TableId };
}

impl Named for Brand {
    ghost use Rattle.std.specs.Prelude.{[]};
    ghost use Rattle.atomic_table.specs.Seated.{TableId};

    ghost table = { record { words = 0; slots = 0; views_name = 0; atom = 0; block = 0; offset = 0; slot_names = [] } };
}

/// List `I`, 0 or 1, with the share that has its part. Contracts see its entries.
#[derive(Drop)]
pub struct Cell<N: Named, const I: usize> {
    pub(crate) items: Vec<Entry>,
    pub(crate) share: Parts,
    pub(crate) of: PhantomData<N>,
}

impl<N: Named, const I: usize> Model for Cell<N, I> {
    ghost use Rattle.std.specs.Prelude.{◌≡◌, ◌<◌, List, [], ◌∷◌};
    ghost use Rattle.shared_parts.specs.Words.{word_of};
    ghost use Rattle.live_tests.specs.Merged.{part_of_list};
    ghost use Rattle.live_tests.specs.declared.entry.Entry.{Entry};

    ghost Value = { List Entry };

    ghost view = { λ c. c.items.items };

    ghost invariant = { λ c. (c.share.table ≡ N.table) × (word_of I < N.table.words) × (I < 2) × (c.share.parts ≡ part_of_list I c.items.items ∷ []) };
}

impl<N: Named, const I: usize> Cell<N, I> {
    /// An empty list.
    pub fn empty(alloc: Global, share: Parts) -> Cell<N, I>
        requires named { (share.table ≡ N.table) × (word_of I < N.table.words) }
        requires low { I < 2 }
        requires parts { share.parts ≡ part_of_list I [] ∷ [] }
        ensures empty { result ≡ [] }
    {
        Cell {
            items: Vec::new(alloc),
            share,
            of: PhantomData,
        }
    }

    /// The thread adds a value to the list.
    pub fn add(&mut self, worker: &mut Worker<N>, value: u64) -> Result<(), AllocError>
        ensures thread { worker.new.thread ≡ worker.old.thread }
        ensures added { IfOk result (λ _. worker.new.added ≡ worker.old.added ++ entry I worker.old.thread value ∷ []) }
        ensures list { IfOk result (λ _. self.new ≡ self.old ++ entry I worker.old.thread value ∷ []) }
    {
        let entry = Entry {
            list: I as u64,
            thread: worker.thread,
            value,
        };
        self.items.push(entry)?;
        worker.share.step_with(I, &mut self.share, &entry);
        Ok(())
    }
}
