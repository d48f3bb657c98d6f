//! The slot of a place.

use crate::cached_line::CachedLine;

/// What was last written of a place, and in which generation.
#[derive(Clone, Copy, Debug, PartialEq, Eq)]
pub struct Slot {
    pub generation: u64,
    pub place: Option<CachedLine>,
}
