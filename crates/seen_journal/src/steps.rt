//! The atomic steps of a journal's seats.
ghost use Rattle.std.specs.Prelude.{◌≡◌, ◌<◌, ◌≤◌, ◌+◌, ◌^◌, [], ◌∷◌, ◌++◌, length, slice_index_or};
ghost use Rattle.seen_journal.specs.declared.role.Role.TheVariants.{Own, Pass};
ghost use Rattle.seen_journal.specs.Entries.{entries_of};
ghost use Rattle.seen_journal.specs.Kinds.{Learns, rested, note_of, told, enrols, enrolled};

use crate::plays::{Add, Ask, Count, Enrol, Look, Tell};
use crate::rule::JournalRule;
use crate::view::View;
use atomic_table::{Seat, Shared};

/// What a journal and its passes share of their table.
pub(crate) type Board<E> = Shared<E, View<E>, Vec<u32>, JournalRule>;

/// The next pass gets a seat.
#[tactic(auto, using(crate::proofs::Enrolments::pass_is_enrolled))]
pub(crate) fn enrol<E>(board: &Board<E>, seat: &mut Seat<E, View<E>>) -> Seat<E, View<E>>
    requires table { (seat.old.table_id ≡ board.now.table_id) × (0 < board.now.table_id.words) }
    requires own { seat.old.me.0.role ≡ Own }
    ensures seat { (seat.new.table_id ≡ seat.old.table_id) × (seat.new.me ≡ (enrols seat.old.me.0, seat.old.me.1)) }
    ensures pass { (result.table_id ≡ seat.old.table_id) × (result.me ≡ (enrolled seat.old.me.0, [])) }
{
    board.split_seat::<Enrol>(seat)
}

/// A pass asks for an entry.
pub(crate) fn ask<E>(board: &Board<E>, seat: &mut Seat<E, View<E>>, entry: &E)
    requires table { (seat.old.table_id ≡ board.now.table_id) × (0 < board.now.table_id.words) }
    requires pass { seat.old.me.0.role ≡ Pass }
    requires quota { length seat.old.me.0.asked < slice_index_or seat.old.me.0.quotas seat.old.me.0.number 0 }
    ensures same { (seat.new.table_id ≡ seat.old.table_id) × (seat.new.id ≡ seat.old.id) }
    ensures view { seat.new.me ≡ (record seat.old.me.0 { asked = seat.old.me.0.asked ++ entry.now ∷ [] }, seat.old.me.1) }
{
    board.compare_exchange_with::<Ask>(seat, 0, 0, 0, entry);
}

/// A seat learns that its older lists begin what it has seen.
pub(crate) fn look<E>(board: &Board<E>, seat: &mut Seat<E, View<E>>)
    requires table { (seat.old.table_id ≡ board.now.table_id) × (0 < board.now.table_id.words) }
    ensures same { (seat.new.table_id ≡ seat.old.table_id) × (seat.new.id ≡ seat.old.id) }
    ensures view { seat.new.me ≡ (rested seat.old.me.0, seat.old.me.1) }
    ensures learns { Learns seat.old.me.0 }
{
    board.load::<Look>(seat, 0);
}

/// How many entries the list has: as many as the seat has seen, or more.
pub(crate) fn count<E>(board: &Board<E>, seat: &mut Seat<E, View<E>>) -> u64
    requires table { (seat.old.table_id ≡ board.now.table_id) × (0 < board.now.table_id.words) }
    ensures same { (seat.new.table_id ≡ seat.old.table_id) × (seat.new.id ≡ seat.old.id) × (seat.new.me ≡ seat.old.me) }
    ensures length { length seat.old.me.0.seen ≤ result }
{
    board.load::<Count>(seat, 0)
}

/// One seat tells another what it knows.
#[tactic(auto, using(crate::proofs::Notes::note_is_split, crate::proofs::Notes::note_is_joined))]
pub(crate) fn tell<E>(board: &Board<E>, from: &mut Seat<E, View<E>>, to: &mut Seat<E, View<E>>)
    requires table { (from.old.table_id ≡ board.now.table_id) × (to.old.table_id ≡ board.now.table_id) × (0 < board.now.table_id.words) }
    ensures from { (from.new.table_id ≡ from.old.table_id) × (from.new.id ≡ from.old.id) × (from.new.me ≡ from.old.me) }
    ensures to { (to.new.table_id ≡ to.old.table_id) × (to.new.id ≡ to.old.id) × (to.new.me ≡ (told to.old.me.0 (note_of from.old.me.0), to.old.me.1)) }
{
    let note = board.split_seat::<Tell>(from);
    board.join_seat::<Tell>(to, note);
}

/// The journal's own seat adds the entry that its claim asks for next.
pub(crate) fn add<E>(board: &Board<E>, seat: &mut Seat<E, View<E>>, entry: &E)
    requires table { (seat.old.table_id ≡ board.now.table_id) × (0 < board.now.table_id.words) }
    requires own { seat.old.me.0.role ≡ Own }
    requires room { length seat.old.me.0.seen + 1 < 2 ^ 64 }
    requires asked { entries_of seat.old.me.0.number seat.old.me.0.seen ++ entry.now ∷ [] ≡ seat.old.me.0.asked }
    ensures same { (seat.new.table_id ≡ seat.old.table_id) × (seat.new.id ≡ seat.old.id) }
    ensures view { seat.new.me ≡ (record seat.old.me.0 { seen = seat.old.me.0.seen ++ (seat.old.me.0.number, entry.now) ∷ [] }, seat.old.me.1) }
{
    board.fetch_add::<Add>(seat, 0, 1);
}
