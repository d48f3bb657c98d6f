//! What a division is judged by.

/// What a division is judged by: a fraction. The less, the better.
#[derive(Clone, Copy, Debug, PartialEq, Eq)]
pub struct Score {
    /// Misses, times a weight.
    pub part: u64,
    /// Uses, 1 at least; 1 where all misses are added.
    pub whole: u64,
}
