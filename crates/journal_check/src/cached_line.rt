//! What a way holds.

/// A line in a way. Its stamp has 64 bits, since a journal may have more entries than a cache makes.
#[derive(Clone, Copy, Debug, PartialEq, Eq)]
pub struct CachedLine {
    /// The number of the line, that is its address divided by 64.
    pub line: u64,
    /// The RMID for which it was filled.
    pub rmid: u16,
    /// When it was last used: the number of the entry of the slice, from 1.
    pub used: u64,
}
