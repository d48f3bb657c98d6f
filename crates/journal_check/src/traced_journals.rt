//! Journals with what their tree says of the commands.

use crate::OpTable;
use crate::trace::Step;
use run_law::Journals;
use script_ops::Script;

/// Journals of a script, with what the history of their tree says of its commands.
#[derive(Clone, Copy)]
pub(crate) struct TracedJournals<'a> {
    /// The script.
    pub script: &'a Script,
    /// The journals.
    pub journals: &'a Journals,
    /// What each command of the tree's history needed, and what followed it.
    pub steps: &'a [Step],
    /// Where the tree took each command, counted from 1, and 0 for an op that it did not take.
    pub places: &'a OpTable,
}
