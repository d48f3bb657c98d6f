//! The rule of a journal's table.
ghost use Rattle.seen_journal.specs.Views.{holds, first_view};

use crate::view::View;
use atomic_table::TableRule;

/// The rule of a journal's table: every seat has seen a beginning of one list. The table's key is the list of quotas.
pub struct JournalRule;

impl<E> TableRule<E, View<E>, Vec<u32>> for JournalRule {
    ghost holds = { λ _. holds };

    ghost first = { λ quotas. first_view quotas.items };
}
