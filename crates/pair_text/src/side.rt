//! The two sides of a group's masks.

/// One of the two masks that a group has in a domain: with code and data prioritization the data mask is the first and the code
/// mask the second (Intel SDM volume 3, code and data prioritization); with two levels the L2's is the first and the L3's the second.
#[derive(Clone, Copy, Debug, PartialEq, Eq)]
pub enum Side {
    /// `L3DATA`, or `L2`.
    First,
    /// `L3CODE`, or `L3`.
    Second,
}
