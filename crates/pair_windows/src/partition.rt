//! The ways of a domain that one side of a group has for itself.

use pair_text::Side;
use rc_base::Gid;

/// The ways of one domain that one side of an exclusive group has for itself: those of its mask, which does not meet the group's
/// mask on the other side (kernel documentation, "Cache Allocation"; Intel SDM volume 3, code and data prioritization).
#[derive(Clone, Copy, Debug, PartialEq, Eq, Drop)]
pub struct Partition {
    /// The group.
    pub gid: Gid,
    /// The side, data or code.
    pub side: Side,
    /// The mask: bit w governs way w.
    pub mask: u32,
}
