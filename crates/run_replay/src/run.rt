//! Runs.

use run_law::Journals;
use script_ops::Script;

/// A run.
#[derive(Clone, Copy)]
pub struct Run<'a> {
    /// Its script.
    pub script: &'a Script,
    /// Its journals.
    pub journals: &'a Journals,
}
