//! A mask for a domain.
use arrayvec::ArrayVec;

/// A capacity bitmask for one L3 domain.
#[derive(Clone, Copy, Debug, Default, PartialEq, Eq)]
pub struct Assignment {
    /// The number of the domain, from 0.
    pub domain: u8,
    /// The mask: bit w governs way w.
    pub mask: u32,
}

/// A mask each for at most eight domains.
pub type Assignments = ArrayVec<Assignment, 8>;
