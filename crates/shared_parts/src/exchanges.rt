//! What two seats of a table do together.
ghost use Rattle.std.specs.Prelude.{◌≡◌, ◌<◌, ◌++◌, [], length};
ghost use Rattle.shared_parts.specs.Changes.{IsChange};
ghost use Rattle.shared_parts.specs.Parts.{AreApart, MayHappen, first_of, parts_after, rest_of};

use crate::change::Change;
use crate::machine::Machine;
use crate::steps::{Board, gain, give, give_first, happen};
use crate::view::View;
use atomic_table::Seat;

/// A seat takes in all parts of another.
pub(crate) fn take_all<E, P, M: Machine<E, P>>(
    board: &Board<E, P, M>,
    seat: &mut Seat<E, View<P>>,
    other: &mut Seat<E, View<P>>,
)
    requires table { (seat.old.table_id ≡ board.now.table_id) × (other.old.table_id ≡ board.now.table_id) × (0 < board.now.table_id.words) }
    ensures table { (seat.new.table_id ≡ seat.old.table_id) × (other.new.table_id ≡ other.old.table_id) }
    ensures seat { seat.new.me.0.parts ≡ other.old.me.0.parts ++ seat.old.me.0.parts }
    ensures other { other.new.me.0.parts ≡ [] }
{
    let lent = give(board, other);
    gain(board, seat, lent);
}

/// A seat gives its first part to another.
pub(crate) fn give_first_to<E, P, M: Machine<E, P>>(
    board: &Board<E, P, M>,
    seat: &mut Seat<E, View<P>>,
    other: &mut Seat<E, View<P>>,
)
    requires table { (seat.old.table_id ≡ board.now.table_id) × (other.old.table_id ≡ board.now.table_id) × (0 < board.now.table_id.words) }
    requires apart { AreApart (first_of seat.old.me.0.parts) (rest_of seat.old.me.0.parts) }
    ensures table { (seat.new.table_id ≡ seat.old.table_id) × (other.new.table_id ≡ other.old.table_id) }
    ensures seat { seat.new.me.0.parts ≡ rest_of seat.old.me.0.parts }
    ensures other { other.new.me.0.parts ≡ first_of seat.old.me.0.parts ++ other.old.me.0.parts }
{
    let first = give_first(board, seat);
    gain(board, other, first);
}

/// An event happens to the one part of another seat and to the parts of this one, by a step that writes a word so.
pub(crate) fn happen_to_both<E, P, M: Machine<E, P>>(
    board: &Board<E, P, M>,
    change: Change,
    seat: &mut Seat<E, View<P>>,
    other: &mut Seat<E, View<P>>,
    event: &E,
)
    requires table { (seat.old.table_id ≡ board.now.table_id) × (other.old.table_id ≡ board.now.table_id) }
    requires word { change.word < board.now.table_id.words }
    requires one { length other.old.me.0.parts ≡ 1 }
    requires apart { AreApart other.old.me.0.parts seat.old.me.0.parts }
    requires shown { IsChange M.shown M.after event.now change (other.old.me.0.parts ++ seat.old.me.0.parts) }
    requires may { MayHappen M.reached M.after event.now (other.old.me.0.parts ++ seat.old.me.0.parts) }
    ensures table { (seat.new.table_id ≡ seat.old.table_id) × (other.new.table_id ≡ other.old.table_id) }
    ensures seat { seat.new.me.0.parts ≡ parts_after M.after event.now seat.old.me.0.parts }
    ensures other { other.new.me.0.parts ≡ parts_after M.after event.now other.old.me.0.parts }
{
    take_all(board, seat, other);
    happen(board, change, seat, event);
    give_first_to(board, seat, other);
}
