//! What a seat of the table has.
use std::collections::LinkedList;

/// The parts that a seat has. No value of it is made: only proofs see views.
pub struct View<P> {
    /// The parts, each with its number.
    pub parts: LinkedList<(u64, P)>,
}
