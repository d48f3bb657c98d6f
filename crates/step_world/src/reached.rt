//! What came of an access that was not stale.

/// What came of an access that was not stale.
#[derive(Clone, Copy, Debug, PartialEq, Eq)]
pub struct Reached {
    /// Whether a way held the line before.
    pub hit: bool,
    /// The way that holds the line now.
    pub way: u8,
}
