//! The kinds of step, and what each tells who takes it.
ghost use Rattle.seen_journal.specs.Kinds.{asked_more, added, counted, looked, enrols, enrolled, note_of, told, spent};

use crate::view::View;
use atomic_table::{Join, Play, Split};

/// A pass asks for an entry. No word changes.
pub struct Ask;

impl<E> Play<E, View<E>> for Ask {
    ghost then = { asked_more };
}

/// The journal's own seat adds the entry that a pass asked for. The word, its length, grows by one.
pub struct Add;

impl<E> Play<E, View<E>> for Add {
    ghost then = { added };
}

/// A seat looks at the word, and learns that the lists that it took in are beginnings of one list.
pub struct Look;

impl<E> Play<E, View<E>> for Look {
    ghost then = { looked };
}

/// A seat counts the list.
pub struct Count;

impl<E> Play<E, View<E>> for Count {
    ghost then = { counted };
}

/// The next pass gets a seat and its number.
pub struct Enrol;

impl<E> Split<View<E>> for Enrol {
    ghost left = { enrols };

    ghost right = { enrolled };
}

/// A note of a view is written, and taken in by another seat.
pub struct Tell;

impl<E> Split<View<E>> for Tell {
    ghost left = { λ v. v };

    ghost right = { note_of };
}

impl<E> Join<View<E>> for Tell {
    ghost both = { told };

    ghost spent = { spent };
}
