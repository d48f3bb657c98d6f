//! What one thread has seen of a journal, and what it has added.
ghost use Rattle.std.specs.Prelude.{◌≡◌, ℕ, ◌<◌, ◌≤◌, ◌+◌, ◌^◌, [], length, IfOk, slice_get, Some};
ghost use Rattle.std.specs.Arc.{arc_value};
ghost use Rattle.seen_journal.specs.declared.role.Role.TheVariants.{Own};
ghost use Rattle.seen_journal.specs.Passes.{new_pass, HasSeen};
ghost use Rattle.seen_journal.specs.Prefixes.{longer_of};

use crate::exchanges::meet_seats;
use crate::rule::JournalRule;
use crate::steps::{count, enrol};
use crate::view::View;
use atomic_table::Seat;
use rc_base::NoMemory;
use std::alloc::Global;
use std::marker::Model;
use std::sync::Arc;

/// The table of a journal, which the journal and its passes share.
pub(crate) type Table<E> = Arc<atomic_table::Table<E, View<E>, Vec<u32>, JournalRule, Global>>;

/// What one thread has seen of a journal, and what it has added. Contracts see the journal's name, the number of the pass, and
/// the beginning of the list that it has seen, each entry with the number of its pass. Its own entries are those of its number.
#[derive(Drop)]
pub struct Pass<E> {
    table: Table<E>,
    pub(crate) seat: Seat<E, View<E>>,
}

impl<E> Model for Pass<E> {
    ghost use Rattle.std.specs.Prelude.{◌≡◌, ◌<◌, ◌≤◌, [], length, slice_index_or};
    ghost use Rattle.std.specs.Arc.{arc_value};
    ghost use Rattle.seen_journal.specs.Exchanged.{IsPass};
    ghost use Rattle.seen_journal.specs.Passes.{PassValue};

    ghost Value = { PassValue E };

    ghost view = { λ p. record { name = record { table = p.seat.table_id; quotas = p.seat.me.0.quotas }; number = p.seat.me.0.number; seen = p.seat.me.0.seen } };

    ghost invariant = { λ p. (p.seat.table_id ≡ (arc_value p.table).shared.table_id) × (0 < p.seat.table_id.words) × IsPass p.seat.me.0 };
}

impl<E> Pass<E> {
    /// Both passes have seen the longer of their two lists. The journal is not needed, so no lock of it is either.
    pub fn meet(a: &mut Pass<E>, b: &mut Pass<E>)
        requires name { a.old.name ≡ b.old.name }
        ensures a { HasSeen a.old a.new (longer_of a.old.seen b.old.seen) }
        ensures b { HasSeen b.old b.new (longer_of a.old.seen b.old.seen) }
    {
        meet_seats(&a.table.shared, &mut a.seat, &mut b.seat);
    }

    /// How many entries the journal has at this moment: as many as the pass has seen, or more. It is one load, of a word that only
    /// an append writes, and no lock is needed for it.
    pub fn journal_length(&mut self) -> u64
        ensures same { self.new ≡ self.old }
        ensures length { length self.old.seen ≤ result }
    {
        count(&self.table.shared, &mut self.seat)
    }
}

/// The passes of a new journal, in order.
pub(crate) fn enrol_all<E: Drop>(
    alloc: Global,
    table: &Table<E>,
    seat: &mut Seat<E, View<E>>,
    count: usize,
) -> Result<Vec<Pass<E>>, NoMemory>
    requires table { (seat.old.table_id ≡ (arc_value table.now).shared.table_id) × (0 < seat.old.table_id.words) }
    requires own { (seat.old.me.0.role ≡ Own) × (seat.old.me.0.next ≡ 0) }
    ensures count { IfOk result (λ r. length r.items ≡ count) }
    ensures passes { IfOk result (λ r. (i : ℕ) → i < count → slice_get r.items i ≡ Some (new_pass (record { table = seat.old.table_id; quotas = seat.old.me.0.quotas }) i)) }
    ensures seat { IfOk result (λ _. (seat.new.table_id ≡ seat.old.table_id) × (seat.new.me ≡ (record seat.old.me.0 { next = count }, seat.old.me.1))) }
{
    let mut passes = Vec::with_capacity(alloc, count)?;
    while passes.len() < count {
        let pass = enrol_one(table, seat)?;
        passes.push_reserved(pass);
    }
    Ok(passes)
}

// The next pass.
fn enrol_one<E: Drop>(table: &Table<E>, seat: &mut Seat<E, View<E>>) -> Result<Pass<E>, NoMemory>
    requires table { (seat.old.table_id ≡ (arc_value table.now).shared.table_id) × (0 < seat.old.table_id.words) }
    requires own { seat.old.me.0.role ≡ Own }
    ensures pass { IfOk result (λ r. r ≡ new_pass (record { table = seat.old.table_id; quotas = seat.old.me.0.quotas }) seat.old.me.0.next) }
    ensures same { seat.new.table_id ≡ seat.old.table_id }
    ensures seat { IfOk result (λ _. seat.new.me ≡ (record seat.old.me.0 { next = seat.old.me.0.next + 1 }, seat.old.me.1)) }
{
    let table = Arc::try_clone(table)?;
    let seat = enrol(&table.shared, seat);
    Ok(Pass { table, seat })
}
