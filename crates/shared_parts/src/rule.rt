//! The rule of the table.
ghost use Rattle.shared_parts.specs.Kept.{IsKept};

use crate::machine::Machine;
use crate::view::View;
use atomic_table::TableRule;
use std::marker::PhantomData;

/// The rule of the table: some state that can be reached has all parts of the seats, no two seats have the same part, and the first
/// word shows the number of its part 0.
pub struct ReachedRule<M> {
    of: PhantomData<M>,
}

impl<E, P, M: Machine<E, P>> TableRule<E, View<P>, ()> for ReachedRule<M> {
    ghost use Rattle.shared_parts.specs.Kept.{IsKept};

    ghost holds = { λ _ s. IsKept M.reached M.shown s.words s.views };

    ghost first = { λ _. record { parts = M.first } };
}
