//! What the steps of one op have in common, and what they do in a slice.

use rc_base::Tag;
use script_ops::Op;
use tree_law::Follow;

/// The command that holds the tree.
#[derive(Clone, Copy)]
pub(crate) struct CommandTurn<'a> {
    /// The op.
    pub(crate) op: &'a Op,
    /// The number of the op in its thread, from 0.
    pub(crate) number: u32,
    /// How many commands the tree has taken, this one too once it is decided.
    pub(crate) epoch: u64,
}

/// A look of the command that holds the tree.
#[derive(Clone, Copy)]
pub struct CommandLook {
    /// The slice in which it looks, by its number over all domains.
    pub(crate) slice: usize,
    /// The number of the op in its thread, from 0.
    pub(crate) number: u32,
    /// How many commands the tree has taken.
    pub(crate) epoch: u64,
    /// The RMID whose lines it counts.
    pub(crate) rmid: u16,
}

/// What follows the command that holds the tree, in one slice.
#[derive(Clone, Copy)]
pub struct CommandFollow {
    /// The slice, by its number over all domains.
    pub(crate) slice: usize,
    /// The number of the op in its thread, from 0.
    pub(crate) number: u32,
    /// How many commands the tree has taken, this one too.
    pub(crate) epoch: u64,
    /// What is done in the slice.
    pub(crate) follow: Follow,
    /// Whether nothing else follows the command after it.
    pub(crate) is_last: bool,
}

/// The access that a thread makes next.
#[derive(Clone, Copy)]
pub(crate) struct AccessTurn {
    /// The number of the op in its thread, from 0.
    pub(crate) number: u32,
    /// The task that makes it.
    pub(crate) task: u32,
    /// The CPU on which it runs.
    pub(crate) cpu: u8,
    /// The address, in bytes.
    pub(crate) addr: u64,
}

/// An access that has its tag.
#[derive(Clone, Copy)]
pub struct TaggedAccess {
    /// The slice of its line, by its number over all domains.
    pub(crate) slice: usize,
    /// The number of the op in its thread, from 0.
    pub(crate) number: u32,
    /// Whose it is, by the tree of an epoch.
    pub(crate) tag: Tag,
    /// The line that it touches.
    pub(crate) line: u64,
}
