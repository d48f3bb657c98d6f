//! What two seats of a journal's table do together.
ghost use Rattle.std.specs.Prelude.{◌≡◌, ◌<◌, ◌+◌, ◌^◌, length, slice_index_or, sum};
ghost use Rattle.seen_journal.specs.Entries.{entries_of};
ghost use Rattle.seen_journal.specs.Exchanged.{IsJournal, IsPass, Rests, Sees, Grows, Gains};
ghost use Rattle.seen_journal.specs.Kinds.{Learns, rested, note_of, told};
ghost use Rattle.seen_journal.specs.Prefixes.{longer_of};

use crate::steps::{Board, add, ask, look, tell};
use crate::view::View;
use atomic_table::Seat;

// One seat tells another, which then looks.
fn inform<E>(board: &Board<E>, from: &mut Seat<E, View<E>>, to: &mut Seat<E, View<E>>)
    requires table { (from.old.table_id ≡ board.now.table_id) × (to.old.table_id ≡ board.now.table_id) × (0 < board.now.table_id.words) }
    ensures from { (from.new.table_id ≡ from.old.table_id) × (from.new.id ≡ from.old.id) × (from.new.me ≡ from.old.me) }
    ensures same { (to.new.table_id ≡ to.old.table_id) × (to.new.id ≡ to.old.id) }
    ensures view { to.new.me ≡ (rested (told to.old.me.0 (note_of from.old.me.0)), to.old.me.1) }
    ensures learns { Learns (told to.old.me.0 (note_of from.old.me.0)) }
{
    tell(board, from, to);
    look(board, to);
}

/// The pass sees all.
pub(crate) fn show_seats<E>(
    board: &Board<E>,
    journal: &mut Seat<E, View<E>>,
    pass: &mut Seat<E, View<E>>,
)
    requires table { (journal.old.table_id ≡ board.now.table_id) × (pass.old.table_id ≡ board.now.table_id) × (0 < board.now.table_id.words) }
    requires kept { IsJournal journal.old.me.0 × IsPass pass.old.me.0 }
    ensures table { (journal.new.table_id ≡ journal.old.table_id) × (pass.new.table_id ≡ pass.old.table_id) }
    ensures views { Rests journal.old.me.0 journal.new.me.0 × Sees pass.old.me.0 pass.new.me.0 journal.old.me.0.seen }
    ensures room { pass.old.me.0.quotas ≡ journal.old.me.0.quotas → length (entries_of pass.old.me.0.number pass.old.me.0.seen) < slice_index_or pass.old.me.0.quotas pass.old.me.0.number 0 → length journal.old.me.0.seen < sum journal.old.me.0.quotas }
{
    inform(board, pass, journal);
    inform(board, journal, pass);
}

/// Both passes see the longer of their lists.
pub(crate) fn meet_seats<E>(board: &Board<E>, a: &mut Seat<E, View<E>>, b: &mut Seat<E, View<E>>)
    requires table { (a.old.table_id ≡ board.now.table_id) × (b.old.table_id ≡ board.now.table_id) × (0 < board.now.table_id.words) }
    requires kept { IsPass a.old.me.0 × IsPass b.old.me.0 }
    ensures table { (a.new.table_id ≡ a.old.table_id) × (b.new.table_id ≡ b.old.table_id) }
    ensures a { Sees a.old.me.0 a.new.me.0 (longer_of a.old.me.0.seen b.old.me.0.seen) }
    ensures b { Sees b.old.me.0 b.new.me.0 (longer_of a.old.me.0.seen b.old.me.0.seen) }
{
    inform(board, b, a);
    inform(board, a, b);
}

/// The pass, which has seen all, asks for the entry, the journal adds it, and the pass sees it.
pub(crate) fn append_seats<E>(
    board: &Board<E>,
    journal: &mut Seat<E, View<E>>,
    pass: &mut Seat<E, View<E>>,
    entry: &E,
)
    requires table { (journal.old.table_id ≡ board.now.table_id) × (pass.old.table_id ≡ board.now.table_id) × (0 < board.now.table_id.words) }
    requires kept { IsJournal journal.old.me.0 × IsPass pass.old.me.0 }
    requires room { length journal.old.me.0.seen + 1 < 2 ^ 64 }
    requires quota { length pass.old.me.0.asked < slice_index_or pass.old.me.0.quotas pass.old.me.0.number 0 }
    requires seen { pass.old.me.0.seen ≡ journal.old.me.0.seen }
    ensures table { (journal.new.table_id ≡ journal.old.table_id) × (pass.new.table_id ≡ pass.old.table_id) }
    ensures journal { Grows journal.old.me.0 journal.new.me.0 pass.old.me.0.number entry.now }
    ensures pass { Gains pass.old.me.0 pass.new.me.0 journal.new.me.0.seen entry.now }
{
    ask(board, pass, entry);
    inform(board, pass, journal);
    add(board, journal, entry);
    inform(board, journal, pass);
}
