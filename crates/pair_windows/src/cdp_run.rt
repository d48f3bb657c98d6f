//! A run with code and data prioritization.

use cache_core::SliceEntry;
use pair_text::PairScript;
use rc_base::Reply;

/// A run with code and data prioritization: the script, the replies to its commands, and the entries of each domain.
#[derive(Drop)]
pub(crate) struct CdpRun<'a> {
    /// The script.
    pub script: &'a PairScript,
    /// The replies, one for each command.
    pub replies: &'a [Reply],
    /// The entries, a list for each domain.
    pub slices: &'a [Vec<SliceEntry>],
}
