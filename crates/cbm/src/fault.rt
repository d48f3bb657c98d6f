//! What is wrong with a mask.

/// Why a mask is not valid. The faults are tried in this order.
#[derive(Clone, Copy, Debug, PartialEq, Eq)]
pub enum CbmFault {
    /// It has no way at all, or one that does not exist.
    Range,
    /// A way between its least and its greatest is missing, on a cache that is not sparse.
    Gaps,
    /// Its lowest run of adjacent ways is shorter than the least number.
    TooFew,
}
