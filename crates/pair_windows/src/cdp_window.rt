//! What is counted of a window of a run with code and data prioritization.

use pair_text::Side;
use rc_base::Gid;

/// A window in which a side of a group has the ways of its mask for itself, after a flush (this project's profile). It counts the
/// accesses of that side.
#[derive(Clone, Copy, Debug, PartialEq, Eq, Drop)]
pub struct CdpWindow {
    /// The domain, from 0.
    pub domain: u8,
    /// The group.
    pub gid: Gid,
    /// The side, data or code.
    pub side: Side,
    /// How many ways the mask has, from 1 to 32.
    pub ways: u8,
    /// The position, from 0, of the flush among the entries of the domain.
    pub from: u32,
    /// The accesses.
    pub accesses: u64,
    /// Those that hit.
    pub hits: u64,
    /// Those before which nobody else had used, in the window, a line that the side uses in it.
    pub covered: u64,
    /// Those of the covered that hit.
    pub covered_hits: u64,
    /// Those of the covered that hit in a private cache of as many ways.
    pub private: u64,
}
