//! What lies under locks, and what a thread has.
ghost use Rattle.std.specs.Prelude.{◌≡◌, ◌≤◌, ◌+◌, [], length};
ghost use Rattle.seen_journal.specs.Journals.{JournalName};
ghost use Rattle.seen_journal.specs.Passes.{quota_of, own_entries};

use seen_journal::{Journal, Pass};
use std::marker::{Brand, PhantomData};

/// Names a journal.
pub trait Named {
    ghost name: { JournalName };
}

impl Named for Brand {
    ghost use Rattle.std.specs.Prelude.{[]};
    ghost use Rattle.seen_journal.specs.Journals.{JournalName};

    ghost name = { record { table = record { words = 0; slots = 0; views_name = 0; atom = 0; block = 0; offset = 0; slot_names = [] }; quotas = [] } };
}

/// A journal, under a lock. An entry is a thread and a number.
#[derive(Drop)]
pub struct Desk<N: Named> {
    pub journal: Journal<(u32, u32)>,
    pub of: PhantomData<N>,
    ghost named: { journal.name ≡ N.name },
}

/// A pass that adds nothing, under another lock. Threads tell one another through it what they have seen.
#[derive(Drop)]
pub struct Board<N: Named> {
    pub pass: Pass<(u32, u32)>,
    pub of: PhantomData<N>,
    ghost named: { pass.name ≡ N.name },
}

/// What a thread has: its pass, its number, and how many entries it may still add.
#[derive(Drop)]
pub struct Worker<N: Named> {
    pub pass: Pass<(u32, u32)>,
    pub number: u32,
    pub left: u32,
    pub of: PhantomData<N>,
    ghost named: { pass.name ≡ N.name },
    ghost numbered: { pass.number ≡ number },
    ghost room: { length (own_entries pass) + left ≤ quota_of pass },
}

impl<N: Named> Desk<N> {
    /// Adds a number as the worker's entry, where it may still add one.
    pub fn add(&mut self, worker: &mut Worker<N>, number: u32) {
        if worker.left > 0 {
            worker.left -= 1;
            self.journal
                .append(&mut worker.pass, (worker.number, number));
        }
    }

    /// Shows the worker the whole list.
    pub fn show(&mut self, worker: &mut Worker<N>) {
        self.journal.show(&mut worker.pass);
    }
}

impl<N: Named> Board<N> {
    /// The worker and the board have seen the same.
    pub fn meet(&mut self, worker: &mut Worker<N>) {
        Pass::meet(&mut self.pass, &mut worker.pass);
    }
}
