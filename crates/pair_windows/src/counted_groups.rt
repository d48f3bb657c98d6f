//! Exclusive groups with what is counted of their windows.

use crate::level_masks::LevelMasks;
use private_lru::{Span, WindowCounts};

/// The groups that are exclusive after a flush, with what is counted of their windows at each level, in the same order.
#[derive(Drop)]
pub(crate) struct CountedGroups<'a> {
    /// The groups, each with its masks and how long it keeps them.
    pub held: &'a [Span<LevelMasks>],
    /// The counts where a use hits by its L2 entry.
    pub l2: &'a [WindowCounts],
    /// The counts where it hits by its L3 entry.
    pub l3: &'a [WindowCounts],
}
