//! What a command owes to a slice.

use crate::trace::Step;
use machine::Machine;

/// What a command owes to a slice: an entry for each of its needs that is looked up there, and for each follow-up that is entered
/// there.
#[derive(Clone, Copy)]
pub(crate) struct Debt<'a> {
    /// The machine of the slice.
    pub machine: &'a Machine,
    /// The slice, by its number over all domains.
    pub slice: usize,
    /// The position of the command in the tree's history.
    pub position: usize,
    /// What the command needed, and what followed it.
    pub step: &'a Step,
}
