//! What a call found.

use journal_check::Verdict;
use run_law::Journals;

/// The journals that were exported or checked, and whether they are a run.
#[derive(Drop)]
pub struct Checked {
    /// The journals.
    pub journals: Journals,
    /// Whether they are a run of the script, and the first clause that is false where they are none. Those of an export are one.
    pub verdict: Verdict,
}
