//! The kinds of step, and what each tells who takes it.
ghost use Rattle.std.specs.Prelude.{ℕ, Option};
ghost use Rattle.shared_parts.specs.Kinds.{all_of, first_one, happened, happened_where, joined, known, left_over, no_parts, nothing};

use crate::machine::Machine;
use crate::view::View;
use atomic_table::{Join, Play, Split};
use std::marker::{Brand, PhantomData};

/// An event happens to the parts of a seat.
pub struct Happen<M> {
    of: PhantomData<M>,
}

impl<E, P, M: Machine<E, P>> Play<E, View<P>> for Happen<M> {
    ghost use Rattle.shared_parts.specs.Kinds.{happened};

    ghost then = { happened M.after };
}

/// What a load tells: an event, where the first word shows this number. Each call picks them.
pub trait Told<E> {
    /// The event.
    ghost event: { Option E };

    /// The number.
    ghost number: { ℕ };
}

impl<E> Told<E> for Brand {
    ghost use Rattle.std.specs.Prelude.{None};

    ghost event = { None };

    ghost number = { 0 };
}

/// An event happens to the parts of a seat where the first word shows a number. No word changes.
pub struct HappenWhere<M, J> {
    of: PhantomData<(M, J)>,
}

impl<E, P, M: Machine<E, P>, J: Told<E>> Play<E, View<P>> for HappenWhere<M, J> {
    ghost use Rattle.shared_parts.specs.Kinds.{happened_where};

    ghost then = { happened_where M.after J.event J.number };
}

/// A seat learns that a state with its parts was reached.
pub struct Know<M> {
    of: PhantomData<M>,
}

impl<E, P, M: Machine<E, P>> Play<E, View<P>> for Know<M> {
    ghost use Rattle.shared_parts.specs.Kinds.{known};

    ghost then = { known M.reached };
}

/// A seat gives all its parts to another, which has them before its own.
pub struct Lend;

impl<P> Split<View<P>> for Lend {
    ghost use Rattle.shared_parts.specs.Kinds.{all_of, no_parts};

    ghost left = { no_parts };

    ghost right = { all_of };
}

impl<P> Join<View<P>> for Lend {
    ghost use Rattle.shared_parts.specs.Kinds.{joined, nothing};

    ghost both = { joined };

    ghost spent = { nothing };
}

/// A seat gives its first part.
pub struct LendFirst;

impl<P> Split<View<P>> for LendFirst {
    ghost use Rattle.shared_parts.specs.Kinds.{first_one, left_over};

    ghost left = { left_over };

    ghost right = { first_one };
}
