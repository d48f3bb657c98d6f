//! What the words after the program's name ask for.

use crate::command::Command;
use report_pieces::Flags;

/// What the words after the program's name ask for. (This project's profile.)
#[derive(Clone, Copy, Debug, PartialEq, Eq)]
pub struct Form {
    /// What is to be done.
    pub command: Command,
    /// What the report holds.
    pub flags: Flags,
}
