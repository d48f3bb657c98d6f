//! Who uses the ways of a cache.

/// Who uses the ways of one cache, each part a capacity bitmask.
#[derive(Clone, Copy, Debug, Default, PartialEq, Eq)]
pub struct DomainUse {
    /// The ways that other hardware uses too (kernel documentation, `shareable_bits`).
    pub hardware: u32,
    /// The ways of the shareable groups.
    pub shared: u32,
    /// The ways of the exclusive groups.
    pub exclusive: u32,
    /// The ways of the pseudo-locked region, and 0 where the cache has none.
    pub region: u32,
}
