//! What a way holds.

/// A line in a way.
#[derive(Clone, Copy, Debug, PartialEq, Eq)]
pub struct CachedLine {
    /// The number of the line, that is its address divided by 64.
    pub line: u64,
    /// The RMID for which it was filled.
    pub rmid: u16,
    /// When it was last used, as the slice counts its entries, of which it makes at most 2^32.
    pub used: u32,
}
