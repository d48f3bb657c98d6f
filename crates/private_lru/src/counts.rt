//! What is counted of a window of a slice.

/// What is counted of a group's accesses in a window. (This project's profile.)
#[derive(Clone, Copy, Debug, PartialEq, Eq)]
pub struct WindowCounts {
    /// The accesses of the group.
    pub accesses: u64,
    /// Those that hit.
    pub hits: u64,
    /// Those that are covered: before them nobody else, in the window or by the lock that opens it, had used any line that the
    /// group uses in the window.
    pub covered: u64,
    /// Those of the covered that hit.
    pub covered_hits: u64,
}
