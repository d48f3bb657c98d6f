//! The caches of a level, with what is counted in them.

use cache_core::SliceEntry;
use run_counts::CacheCounts;

/// The entries of the caches of a level, and what is counted in them.
#[derive(Drop)]
pub(crate) struct CountedCaches<'a> {
    /// The entries, a list for each domain.
    pub entries: &'a [Vec<SliceEntry>],
    /// What is counted in them.
    pub counts: &'a CacheCounts,
}
