//! The atomic steps of the seats.
ghost use Rattle.std.specs.Prelude.{◌≡◌, ◌==◌, ◌<◌, [], Some};
ghost use mathlib.Core.Option.{none};
ghost use Rattle.shared_parts.specs.Kinds.{all_of, first_one, joined, known, left_over, no_parts};
ghost use Rattle.shared_parts.specs.Changes.{IsChange};
ghost use Rattle.shared_parts.specs.Parts.{AreApart, IsQuiet, MayHappen, MayHappenWhere, first_of, parts_after, parts_where, rest_of};

use crate::change::Change;
use crate::machine::Machine;
use crate::plays::{Happen, HappenWhere, Know, Lend, LendFirst, Told};
use crate::rule::ReachedRule;
use crate::view::View;
use atomic_table::{Seat, Shared};

/// What the seats share of their table.
pub(crate) type Board<E, P, M> = Shared<E, View<P>, (), ReachedRule<M>>;

/// An event happens to the parts of a seat, by a step that writes a word so.
pub(crate) fn happen<E, P, M: Machine<E, P>>(
    board: &Board<E, P, M>,
    change: Change,
    seat: &mut Seat<E, View<P>>,
    event: &E,
)
    requires table { seat.old.table_id ≡ board.now.table_id }
    requires word { change.word < board.now.table_id.words }
    requires shown { IsChange M.shown M.after event.now change seat.old.me.0.parts }
    requires may { MayHappen M.reached M.after event.now seat.old.me.0.parts }
    ensures same { (seat.new.table_id ≡ seat.old.table_id) × (seat.new.id ≡ seat.old.id) }
    ensures parts { seat.new.me.0.parts ≡ parts_after M.after event.now seat.old.me.0.parts }
{
    board.compare_exchange_with::<Happen<M>>(seat, change.word, change.before, change.after, event);
}

/// Where the first word shows a number, an event happens to the parts of a seat. It is a load.
pub(crate) fn happen_where<E, P, M: Machine<E, P>, J: Told<E>>(
    board: &Board<E, P, M>,
    seat: &mut Seat<E, View<P>>,
    number: u64,
    event: &E,
) -> bool
    requires told { (J.event ≡ Some event.now) × (J.number ≡ number) }
    requires table { (seat.old.table_id ≡ board.now.table_id) × (0 < board.now.table_id.words) }
    requires quiet { IsQuiet M.shown M.after event.now seat.old.me.0.parts }
    requires may { MayHappenWhere M.reached M.shown M.after event.now number seat.old.me.0.parts }
    ensures same { (seat.new.table_id ≡ seat.old.table_id) × (seat.new.id ≡ seat.old.id) }
    ensures parts { seat.new.me.0.parts ≡ parts_where M.after event.now result seat.old.me.0.parts }
{
    board.load::<HappenWhere<M, J>>(seat, 0) == number
}

/// A state with the seat's parts was reached.
pub(crate) fn know<E, P, M: Machine<E, P>>(board: &Board<E, P, M>, seat: &mut Seat<E, View<P>>)
    requires table { (seat.old.table_id ≡ board.now.table_id) × (0 < board.now.table_id.words) }
    ensures same { (seat.new.table_id ≡ seat.old.table_id) × (seat.new.id ≡ seat.old.id) }
    ensures known { known M.reached (record { slots = 0; word = 0; first = 0; second = 0; said = none }) seat.old.me 0 seat.new.me }
{
    board.load::<Know<M>>(seat, 0);
}

/// A seat gives all its parts.
pub(crate) fn give<E, P, M: Machine<E, P>>(
    board: &Board<E, P, M>,
    seat: &mut Seat<E, View<P>>,
) -> Seat<E, View<P>>
    requires table { (seat.old.table_id ≡ board.now.table_id) × (0 < board.now.table_id.words) }
    ensures same { (seat.new.table_id ≡ seat.old.table_id) × (seat.new.id ≡ seat.old.id) × (result.table_id ≡ seat.old.table_id) }
    ensures left { seat.new.me ≡ (no_parts seat.old.me.0, seat.old.me.1) }
    ensures given { result.me ≡ (all_of seat.old.me.0, []) }
{
    board.split_seat::<Lend>(seat)
}

/// A seat gives its first part.
pub(crate) fn give_first<E, P, M: Machine<E, P>>(
    board: &Board<E, P, M>,
    seat: &mut Seat<E, View<P>>,
) -> Seat<E, View<P>>
    requires table { (seat.old.table_id ≡ board.now.table_id) × (0 < board.now.table_id.words) }
    requires apart { AreApart (first_of seat.old.me.0.parts) (rest_of seat.old.me.0.parts) }
    ensures same { (seat.new.table_id ≡ seat.old.table_id) × (seat.new.id ≡ seat.old.id) × (result.table_id ≡ seat.old.table_id) }
    ensures left { seat.new.me ≡ (left_over seat.old.me.0, seat.old.me.1) }
    ensures given { result.me ≡ (first_one seat.old.me.0, []) }
{
    board.split_seat::<LendFirst>(seat)
}

/// A seat takes in another's parts, before its own.
pub(crate) fn gain<E, P, M: Machine<E, P>>(
    board: &Board<E, P, M>,
    seat: &mut Seat<E, View<P>>,
    other: Seat<E, View<P>>,
)
    requires table { (seat.old.table_id ≡ board.now.table_id) × (other.table_id ≡ board.now.table_id) × (0 < board.now.table_id.words) }
    requires none { other.me.1 ≡ [] }
    ensures same { (seat.new.table_id ≡ seat.old.table_id) × (seat.new.id ≡ seat.old.id) }
    ensures both { seat.new.me ≡ (joined seat.old.me.0 other.me.0, seat.old.me.1) }
{
    board.join_seat::<Lend>(seat, other);
}
