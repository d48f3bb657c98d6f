//! Commands of a run.

use crate::run::Run;
use run_law::TreeEntry;

/// A command of a run, at its position in the history of the tree.
#[derive(Clone, Copy)]
pub struct CommandAt<'a> {
    /// The run.
    pub run: Run<'a>,
    /// Its position, counted from 0.
    pub position: usize,
    /// Its entry, which stands there.
    pub entry: &'a TreeEntry,
}
