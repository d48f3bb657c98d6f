//! A line and the way that it is in.

/// A line and the way that it is in, in the set that the line has.
#[derive(Clone, Copy, Drop)]
pub(crate) struct PlacedLine {
    /// The number of the line.
    pub line: u64,
    /// The way, from 0.
    pub way: u8,
}
