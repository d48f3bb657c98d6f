//! Ways side by side.

/// Ways side by side: so many from the first on.
#[derive(Clone, Copy, Debug, PartialEq, Eq)]
pub struct Span {
    /// The lowest way, numbered from 0.
    pub first: u8,
    /// How many ways.
    pub count: u8,
}
