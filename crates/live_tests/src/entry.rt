//! An entry of a list, and a part of the state.
use std::collections::LinkedList;

/// A thread adds a value to a list.
#[derive(Clone, Copy, PartialEq, Eq, Debug)]
pub struct Entry {
    /// The number of the list, 0 or 1.
    pub list: u64,
    /// The number of the thread, 0 or 1.
    pub thread: u64,
    /// The value.
    pub value: u64,
}

/// A part of the state: what one list has, or what one thread has added, in order. No value of it is made: only proofs see it.
pub struct Part {
    /// The entries, in order.
    pub entries: LinkedList<Entry>,
}
