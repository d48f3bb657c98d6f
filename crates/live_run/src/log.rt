//! A journal before its run begins.
ghost use Rattle.std.specs.Prelude.{◌≡◌, ◌+◌, ◌-◌, ◌<◌, ◌^◌, [], IfOk, length, sum};
ghost use Rattle.seen_journal.specs.Passes.{new_pass};

use rc_base::NoMemory;
use seen_journal::{Journal, Pass};
use std::alloc::Global;
use std::marker::Model;

/// An empty journal, and those of its passes that are not given yet, the next last. Contracts see its name, and how many are left.
#[derive(Drop)]
pub struct Log<E> {
    journal: Journal<E>,
    passes: Vec<Pass<E>>,
}

impl<E> Model for Log<E> {
    ghost use Rattle.std.specs.Prelude.{length};
    ghost use Rattle.live_run.specs.Logs.{IsLog, LogValue};

    ghost Value = { LogValue };

    ghost view = { λ l. record { name = l.journal.name; left = length l.passes.items } };

    ghost invariant = { λ l. IsLog l.journal l.passes.items };
}

impl<E: Drop> Log<E> {
    /// The journal of passes with these quotas. NoMemory where there is no room for as many entries.
    pub(crate) fn create(alloc: Global, quotas: &[u32]) -> Result<Log<E>, NoMemory>
        requires some { 0 < length quotas.now }
        requires room { sum quotas.now < 2 ^ 32 }
        ensures quotas { IfOk result (λ l. l.name.quotas ≡ quotas.now) }
        ensures left { IfOk result (λ l. l.left ≡ length quotas.now) }
    {
        let (journal, mut passes) = Journal::create(alloc, quotas)?;
        passes.reverse();
        Ok(Log { journal, passes })
    }

    /// The next pass.
    pub(crate) fn take(&mut self) -> Pass<E>
        requires some { 0 < self.old.left }
        ensures pass { result ≡ new_pass self.old.name (length self.old.name.quotas - self.old.left) }
        ensures name { self.new.name ≡ self.old.name }
        ensures left { self.new.left + 1 ≡ self.old.left }
    {
        self.passes.take_last()
    }

    /// The journal.
    pub(crate) fn into_journal(self) -> Journal<E>
        ensures name { result.name ≡ self.name }
        ensures empty { result.entries ≡ [] }
    {
        let Log { journal, passes: _ } = self;
        journal
    }
}
