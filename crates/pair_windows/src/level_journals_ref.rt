//! The journals of a run with two levels, as they are lent.

use cache_core::SliceEntry;
use rc_base::Reply;

/// A borrowed view of the journals of a run with two levels: the replies to the commands, and the history of each L2 and of each L3
/// cache.
#[derive(Drop)]
pub struct LevelJournalsRef<'a> {
    /// The reply to each command of the script, in order.
    pub replies: &'a [Reply],
    /// What was entered in the L2 caches: one list for each L2 domain, in order.
    pub l2: &'a [Vec<SliceEntry>],
    /// What was entered in the L3 caches: one list for each L3 domain, in order.
    pub l3: &'a [Vec<SliceEntry>],
}
