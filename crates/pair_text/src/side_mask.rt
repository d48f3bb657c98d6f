//! A mask of one side in one domain.

use crate::side::Side;

/// A capacity bitmask of one side in one domain.
#[derive(Clone, Copy, Debug, PartialEq, Eq)]
pub struct SideMask {
    /// The side.
    pub side: Side,
    /// The number of the side's domain, from 0.
    pub domain: u8,
    /// The mask: bit w governs way w.
    pub mask: u32,
}

/// The mask that stands in a free place.
impl Default for SideMask {
    fn default() -> Self {
        SideMask {
            side: Side::First,
            domain: 0,
            mask: 0,
        }
    }
}
