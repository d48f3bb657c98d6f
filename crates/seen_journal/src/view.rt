//! What a seat of a journal's table knows.
use crate::role::Role;
use std::collections::LinkedList;

/// What the journal's own seat, a pass's or a note's knows. No value of it is made: only proofs see views.
pub struct View<E> {
    /// Whose seat it is.
    pub role: Role,
    /// The number of the pass: of a note, and of the journal's own seat, whose list of asked entries it knows.
    pub number: u64,
    /// The number of the next pass, where the seat is the journal's own.
    pub next: u64,
    /// How many entries each pass may add.
    pub quotas: LinkedList<u32>,
    /// The entries that the pass of this number has asked for, as far as it is known.
    pub asked: LinkedList<E>,
    /// The beginning of the journal that was seen, each entry with the number of its pass.
    pub seen: LinkedList<(u64, E)>,
    /// Lists that were taken in and not yet compared.
    pub older: LinkedList<LinkedList<(u64, E)>>,
}
