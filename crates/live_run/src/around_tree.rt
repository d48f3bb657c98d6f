//! What a command of the tree reaches.

use crate::run_names::{NamedTable, RunNames};
use crate::slices::Slices;
use script_ops::Script;

/// What lies around the tree of a run.
#[derive(Clone, Copy)]
pub(crate) struct AroundTree<'a, R, N: RunNames, T: NamedTable> {
    /// What waits for locks.
    pub(crate) rt: &'a R,
    /// The slices of all domains.
    pub(crate) slices: &'a Slices<N, T>,
    /// The script that is run.
    pub(crate) script: &'a Script,
}
