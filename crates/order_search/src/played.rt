//! A script and its journals.

use run_law::Journals;
use script_ops::Script;

/// A script, and the journals for which an order is sought.
#[derive(Drop)]
pub(crate) struct Played<'a> {
    /// The script.
    pub(crate) script: &'a Script,
    /// The journals, with a list for each slice of the script's machine.
    pub(crate) journals: &'a Journals,
}
