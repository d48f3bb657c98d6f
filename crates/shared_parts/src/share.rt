//! A share of the state.
ghost use Rattle.std.specs.Prelude.{◌≡◌, ℕ, ◌<◌, ◌++◌, [], IfOk, OnErr, length};
ghost use Rattle.shared_parts.specs.Parts.{AreApart, Fits, IsQuiet, MayHappen, MayHappenWhere, Shows, first_of, parts_after, parts_where, rest_of};
ghost use Rattle.shared_parts.specs.Words.{word_of, words_for};

use crate::change;
use crate::exchanges::{give_first_to, happen_to_both, take_all};
use crate::machine::Machine;
use crate::rule::ReachedRule;
use crate::steps::{give_first, happen, happen_where, know};
use crate::view::View;
use crate::words::{word_count, word_under};
use atomic_table::Seat;
use std::alloc::{AllocError, Global};
use std::marker::{Brand, Model};
use std::sync::Arc;

// The table that the shares of a state share.
type Table<E, P, M> = Arc<atomic_table::Table<E, View<P>, (), ReachedRule<M>, Global>>;

/// A share of the state of a machine. Contracts see its table, and its parts with their numbers and values: no other share has one
/// of them. It has no bytes for its parts.
#[derive(Drop)]
pub struct Share<E, P, M: Machine<E, P>> {
    table: Table<E, P, M>,
    seat: Seat<E, View<P>>,
}

impl<E, P, M: Machine<E, P>> Model for Share<E, P, M> {
    ghost use Rattle.std.specs.Prelude.{◌≡◌, ◌<◌, ◌^◌};
    ghost use Rattle.std.specs.Arc.{arc_value};
    ghost use Rattle.shared_parts.specs.Shares.{ShareValue};

    ghost Value = { ShareValue P };

    ghost view = { λ s. record { table = s.seat.table_id; parts = s.seat.me.0.parts } };

    ghost invariant = { λ s. (s.seat.table_id ≡ (arc_value s.table).shared.table_id) × (0 < s.seat.table_id.words) × (s.seat.table_id.words < 2 ^ 36) };
}

impl<E: Drop, P, M: Machine<E, P>> Share<E, P, M> {
    /// All parts of the machine's first state, with a word for each of so many locks.
    pub fn create(alloc: Global, locks: u32) -> Result<Share<E, P, M>, AllocError>
        requires starts { (at : ℕ → P) × M.reached at × Fits at M.first × (M.shown (at 0) ≡ 0) }
        ensures words { IfOk result (λ r. r.table.words ≡ words_for locks) }
        ensures parts { IfOk result (λ r. r.parts ≡ M.first) }
    {
        let words = vec![in alloc; 0; word_count(locks)]?;
        let (table, seat) = atomic_table::Table::of_words(alloc, words.as_slice(), &())?;
        let table = Arc::new(alloc, table)?;
        Ok(Share { table, seat })
    }

    /// Takes its first part out, as a share of its own. At `Err` no memory was left, and it has what it had.
    pub fn split(&mut self) -> Result<Share<E, P, M>, AllocError>
        requires apart { AreApart (first_of self.old.parts) (rest_of self.old.parts) }
        ensures table { (self.new.table ≡ self.old.table) × IfOk result (λ r. r.table ≡ self.old.table) }
        ensures first { IfOk result (λ r. r.parts ≡ first_of self.old.parts) }
        ensures rest { IfOk result (λ _. self.new.parts ≡ rest_of self.old.parts) }
        ensures err { OnErr result (self.new ≡ self.old) }
    {
        let table = Arc::try_clone(&self.table)?;
        let seat = give_first(&table.shared, &mut self.seat);
        Ok(Share { table, seat })
    }
}

impl<E, P, M: Machine<E, P>> Share<E, P, M> {
    /// An event happens to its parts. Steps under one lock name it, so that steps under two locks write no common cache line.
    pub fn step(&mut self, lock: usize, event: &E)
        requires lock { word_of lock < self.old.table.words }
        requires quiet { IsQuiet M.shown M.after event.now self.old.parts }
        requires may { MayHappen M.reached M.after event.now self.old.parts }
        ensures table { self.new.table ≡ self.old.table }
        ensures parts { self.new.parts ≡ parts_after M.after event.now self.old.parts }
    {
        let board = &self.table.shared;
        let quiet = change::none(word_under(lock));
        happen(board, quiet, &mut self.seat, event);
    }

    /// An event happens to its parts, part 0 among them, and the first word shows the number that part 0 then has.
    pub fn step_shown(&mut self, before: u64, after: u64, event: &E)
        requires before { Shows M.shown before self.old.parts }
        requires after { Shows M.shown after (parts_after M.after event.now self.old.parts) }
        requires may { MayHappen M.reached M.after event.now self.old.parts }
        ensures table { self.new.table ≡ self.old.table }
        ensures parts { self.new.parts ≡ parts_after M.after event.now self.old.parts }
    {
        let board = &self.table.shared;
        let shows = change::shown(before, after);
        happen(board, shows, &mut self.seat, event);
    }

    /// An event happens to its parts where the first word shows this number, and the answer says whether it does. It is one load: it
    /// takes no lock, and writes no word. What it knows of part 0 is what the number says.
    pub fn step_where(&mut self, number: u64, event: &E) -> bool
        requires quiet { IsQuiet M.shown M.after event.now self.old.parts }
        requires may { MayHappenWhere M.reached M.shown M.after event.now number self.old.parts }
        ensures table { self.new.table ≡ self.old.table }
        ensures parts { self.new.parts ≡ parts_where M.after event.now result self.old.parts }
    {
        happen_where::<E, P, M, Brand>(&self.table.shared, &mut self.seat, number, event)
    }

    /// An event happens to the one part of another share and to its own.
    pub fn step_with(&mut self, lock: usize, other: &mut Share<E, P, M>, event: &E)
        requires table { other.old.table ≡ self.old.table }
        requires lock { word_of lock < self.old.table.words }
        requires one { length other.old.parts ≡ 1 }
        requires apart { AreApart other.old.parts self.old.parts }
        requires quiet { IsQuiet M.shown M.after event.now (other.old.parts ++ self.old.parts) }
        requires may { MayHappen M.reached M.after event.now (other.old.parts ++ self.old.parts) }
        ensures table { (self.new.table ≡ self.old.table) × (other.new.table ≡ other.old.table) }
        ensures parts { self.new.parts ≡ parts_after M.after event.now self.old.parts }
        ensures other_parts { other.new.parts ≡ parts_after M.after event.now other.old.parts }
    {
        let board = &self.table.shared;
        let quiet = change::none(word_under(lock));
        happen_to_both(board, quiet, &mut self.seat, &mut other.seat, event);
    }

    /// An event happens to the one part of another share and to its own, part 0 among them, and the first word shows the number that
    /// part 0 then has.
    pub fn step_with_shown(
        &mut self,
        before: u64,
        after: u64,
        other: &mut Share<E, P, M>,
        event: &E,
    )
        requires table { other.old.table ≡ self.old.table }
        requires one { length other.old.parts ≡ 1 }
        requires apart { AreApart other.old.parts self.old.parts }
        requires before { Shows M.shown before (other.old.parts ++ self.old.parts) }
        requires after { Shows M.shown after (parts_after M.after event.now (other.old.parts ++ self.old.parts)) }
        requires may { MayHappen M.reached M.after event.now (other.old.parts ++ self.old.parts) }
        ensures table { (self.new.table ≡ self.old.table) × (other.new.table ≡ other.old.table) }
        ensures parts { self.new.parts ≡ parts_after M.after event.now self.old.parts }
        ensures other_parts { other.new.parts ≡ parts_after M.after event.now other.old.parts }
    {
        let board = &self.table.shared;
        let shows = change::shown(before, after);
        happen_to_both(board, shows, &mut self.seat, &mut other.seat, event);
    }

    /// Takes in all parts of another share, before its own.
    pub fn absorb(&mut self, other: &mut Share<E, P, M>)
        requires table { other.old.table ≡ self.old.table }
        ensures table { (self.new.table ≡ self.old.table) × (other.new.table ≡ other.old.table) }
        ensures parts { self.new.parts ≡ other.old.parts ++ self.old.parts }
        ensures other_parts { other.new.parts ≡ [] }
    {
        take_all(&self.table.shared, &mut self.seat, &mut other.seat);
    }

    /// Gives its first part to another share. Unlike `split` it needs no memory.
    pub fn hand_first(&mut self, other: &mut Share<E, P, M>)
        requires table { other.old.table ≡ self.old.table }
        requires apart { AreApart (first_of self.old.parts) (rest_of self.old.parts) }
        ensures table { (self.new.table ≡ self.old.table) × (other.new.table ≡ other.old.table) }
        ensures parts { self.new.parts ≡ rest_of self.old.parts }
        ensures other_parts { other.new.parts ≡ first_of self.old.parts ++ other.old.parts }
    {
        give_first_to(&self.table.shared, &mut self.seat, &mut other.seat);
    }

    /// Learns that a state with its parts was reached.
    pub fn know(&mut self)
        ensures same { self.new ≡ self.old }
        ensures reached { (at : ℕ → P) × M.reached at × Fits at self.old.parts }
    {
        know(&self.table.shared, &mut self.seat);
    }
}
