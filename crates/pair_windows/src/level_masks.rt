//! What a group has of two levels.

use rc_base::Gid;

/// An exclusive group with its masks.
#[derive(Clone, Copy, Drop)]
pub(crate) struct LevelMasks {
    /// The group.
    pub gid: Gid,
    /// Its masks in the L2 domains.
    pub first: [u32; 8],
    /// Its mask in the L3 domain.
    pub second: u32,
}
