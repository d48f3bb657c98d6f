//! What is held for some epochs.

/// What is held, and the last epoch up to which it is known to be held without a break.
#[derive(Clone, Copy, Debug, PartialEq, Eq, Drop)]
pub struct Span<H> {
    /// What is held.
    pub held: H,
    /// The last epoch.
    pub last: u64,
}
