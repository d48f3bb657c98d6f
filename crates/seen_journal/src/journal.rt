//! A journal that threads share.
ghost use Rattle.std.specs.Prelude.{◌≡◌, ℕ, ◌<◌, ◌≤◌, ◌+◌, ◌^◌, [], ◌∷◌, ◌++◌, length, sum, take, All, IfOk, slice_get, slice_index_or, Some, count_by};
ghost use Rattle.seen_journal.specs.Entries.{list_of, entries_of, owns_at};
ghost use Rattle.seen_journal.specs.Passes.{own_entries, quota_of, new_pass, HasSeen, EachOnce, HasAll};
ghost use Rattle.seen_journal.specs.Prefixes.{IsPrefix};

use crate::exchanges::{append_seats, show_seats};
use crate::pass::{Pass, Table, enrol_all};
use crate::steps::look;
use crate::view::View;
use atomic_table::Seat;
use rc_base::NoMemory;
use std::alloc::Global;
use std::marker::Model;
use std::sync::Arc;

/// One list that several threads add to and look at, each with a pass that has seen a beginning of it. Contracts see its name
/// and its entries, each with the number of the pass that added it. It is never longer than the sum of its passes' quotas, for
/// which it has room from the start.
#[derive(Drop)]
pub struct Journal<E> {
    table: Table<E>,
    seat: Seat<E, View<E>>,
    entries: Vec<E>,
}

impl<E> Model for Journal<E> {
    ghost use Rattle.std.specs.Prelude.{◌≡◌, ◌<◌, ◌≤◌, ◌-◌, ◌^◌, [], length, vec_capacity, vec_len, sum};
    ghost use Rattle.std.specs.Arc.{arc_value};
    ghost use Rattle.seen_journal.specs.Entries.{list_of};
    ghost use Rattle.seen_journal.specs.Exchanged.{IsJournal};
    ghost use Rattle.seen_journal.specs.Journals.{JournalValue};

    ghost Value = { JournalValue E };

    ghost view = { λ j. record { name = record { table = j.seat.table_id; quotas = j.seat.me.0.quotas }; entries = j.seat.me.0.seen } };

    ghost invariant = { λ j. (j.seat.table_id ≡ (arc_value j.table).shared.table_id) × (0 < j.seat.table_id.words) × IsJournal j.seat.me.0 × (list_of j.seat.me.0.seen ≡ j.entries.items) × (sum j.seat.me.0.quotas ≤ vec_capacity j.entries) × (length j.seat.me.0.seen ≤ sum j.seat.me.0.quotas) × (sum j.seat.me.0.quotas < 2 ^ 32) };
}

impl<E: Drop> Journal<E> {
    /// An empty journal, and its passes in the order of their numbers, one for each quota: how many entries it may add.
    #[tactic(auto, using(crate::proofs::Openings::opening_is_kept))]
    pub fn create(alloc: Global, quotas: &[u32]) -> Result<(Journal<E>, Vec<Pass<E>>), NoMemory>
        requires some { 0 < length quotas.now }
        requires room { sum quotas.now < 2 ^ 32 }
        ensures empty { IfOk result (λ r. r.0.entries ≡ []) }
        ensures quotas { IfOk result (λ r. r.0.name.quotas ≡ quotas.now) }
        ensures count { IfOk result (λ r. length r.1.items ≡ length quotas.now) }
        ensures passes { IfOk result (λ r. (i : ℕ) → i < length quotas.now → slice_get r.1.items i ≡ Some (new_pass r.0.name i)) }
    {
        let entries = Vec::with_capacity(alloc, total(quotas))?;
        let key = Vec::from_slice(alloc, quotas)?;
        let (table, mut seat) = atomic_table::Table::of_words(alloc, &[0], &key)?;
        let table = Arc::new(alloc, table)?;
        let passes = enrol_all(alloc, &table, &mut seat, quotas.len())?;
        Ok((
            Journal {
                table,
                seat,
                entries,
            },
            passes,
        ))
    }

    /// The pass has seen the whole list. Where it has fewer entries than its quota, the list is shorter than the sum of the quotas.
    pub fn show(&mut self, pass: &mut Pass<E>)
        requires name { pass.old.name ≡ self.old.name }
        ensures journal { self.new ≡ self.old }
        ensures seen { HasSeen pass.old pass.new self.old.entries }
        ensures quota { length (own_entries pass.old) ≤ quota_of pass.old }
        ensures most { length self.old.entries ≤ sum self.old.name.quotas }
        ensures few { length self.old.entries < 2 ^ 32 }
        ensures room { length (own_entries pass.old) < quota_of pass.old → length self.old.entries < sum self.old.name.quotas }
    {
        show_seats(&self.table.shared, &mut self.seat, &mut pass.seat);
    }

    /// The entry goes last. The pass has seen the whole list, and the entry is its own.
    pub fn append(&mut self, pass: &mut Pass<E>, entry: E)
        requires name { pass.old.name ≡ self.old.name }
        requires quota { length (own_entries pass.old) < quota_of pass.old }
        ensures name { self.new.name ≡ self.old.name }
        ensures list { self.new.entries ≡ self.old.entries ++ (pass.old.number, entry) ∷ [] }
        ensures most { length self.new.entries < 2 ^ 32 }

        // What the pass had seen before was a beginning of the list.
        ensures pass { (pass.new.name ≡ pass.old.name) × (pass.new.number ≡ pass.old.number) }
        ensures prefix { IsPrefix pass.old.seen self.old.entries }
        ensures seen { pass.new.seen ≡ self.new.entries }
        ensures own { own_entries pass.new ≡ own_entries pass.old ++ entry ∷ [] }
    {
        self.show(pass);
        self.push(pass, entry);
    }

    // The entry goes last, of a pass that has seen the whole list, and there is room.
    fn push(&mut self, pass: &mut Pass<E>, entry: E)
        requires name { pass.old.name ≡ self.old.name }
        requires quota { length (own_entries pass.old) < quota_of pass.old }
        requires seen { pass.old.seen ≡ self.old.entries }
        requires room { length self.old.entries < sum self.old.name.quotas }
        ensures name { self.new.name ≡ self.old.name }
        ensures list { self.new.entries ≡ self.old.entries ++ (pass.old.number, entry) ∷ [] }
        ensures most { length self.new.entries < 2 ^ 32 }
        ensures pass { (pass.new.name ≡ pass.old.name) × (pass.new.number ≡ pass.old.number) }
        ensures seen { pass.new.seen ≡ self.new.entries }
        ensures own { own_entries pass.new ≡ own_entries pass.old ++ entry ∷ [] }
    {
        append_seats(&self.table.shared, &mut self.seat, &mut pass.seat, &entry);
        self.entries.push_reserved(entry);
    }

    // No pass has more entries than its quota.
    fn check(&mut self)
        ensures journal { self.new ≡ self.old }
        ensures bound { (n : ℕ) → length (entries_of n self.old.entries) ≤ slice_index_or self.old.name.quotas n 0 }
    {
        look(&self.table.shared, &mut self.seat);
    }

    /// The whole list. What each pass has seen is a beginning of it, and each of its entries is an own entry of exactly one pass.
    pub fn close(mut self, passes: Vec<Pass<E>>) -> Vec<E>
        requires names { All (λ p. p.name ≡ self.name) passes.items }
        requires once { EachOnce self.name.quotas passes.items }
        ensures list { result.items ≡ list_of self.entries }
        ensures seen { All (λ p. IsPrefix p.seen self.entries) passes.items }
        ensures whole { All (λ p. own_entries p ≡ entries_of p.number self.entries) passes.items }
        ensures owned { (k : ℕ) → k < length self.entries → count_by (λ p. owns_at p.number p.seen k) passes.items ≡ 1 }
    {
        self.check();
        self.show_all(passes);
        self.into_entries()
    }

    // Shows each pass the whole list, and learns so that it has no other entries in it.
    fn show_all(&mut self, mut passes: Vec<Pass<E>>)
        requires names { All (λ p. p.name ≡ self.old.name) passes.items }
        ensures journal { self.new ≡ self.old }
        ensures whole { All (HasAll self.old.entries) passes.items }
    {
        while let Some(mut pass) = passes.pop() {
            self.show(&mut pass);
        }
    }

    // The list alone.
    fn into_entries(self) -> Vec<E>
        ensures list { result.items ≡ list_of self.entries }
    {
        let Journal {
            table: _,
            seat: _,
            entries,
        } = self;
        entries
    }
}

// The sum of the quotas.
fn total(quotas: &[u32]) -> usize
    requires room { sum quotas.now < 2 ^ 32 }
    ensures sum { result ≡ sum quotas.now }
{
    let mut all = 0usize;
    for quota in quotas {
        all += *quota as usize;
    }
    all
}
