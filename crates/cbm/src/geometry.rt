//! The shape that a cache asks of its masks.

/// What a valid capacity bitmask of a cache looks like.
#[derive(Clone, Copy, Debug, PartialEq, Eq)]
pub struct Geometry {
    /// The number of ways, from 1 to 32: bit w of a mask governs way w (SDM volume 3, "Cache Allocation Technology",
    /// the length of a capacity bitmask).
    pub len: u8,
    /// The least number of adjacent ways, from 1 to `len` (kernel documentation, `min_cbm_bits`).
    pub min: u8,
    /// Whether a mask may have gaps (kernel documentation, `sparse_masks`).
    pub sparse: bool,
}
