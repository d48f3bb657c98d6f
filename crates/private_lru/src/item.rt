//! What a private cache sees.

/// What a private cache sees of one set: a use of a line, or its flush.
#[derive(Clone, Copy, Debug, PartialEq, Eq)]
pub enum Item {
    /// The line is used.
    Use { line: u64 },
    /// The line is flushed.
    Drop { line: u64 },
}
