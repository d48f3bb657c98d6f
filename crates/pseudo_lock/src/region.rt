//! A pseudo-locked region.
ghost use Rattle.std.specs.Prelude.{◌≡◌};
ghost use Rattle.pseudo_lock.specs.Regions.{has_gid, without};

use rc_base::Gid;

/// The part of one cache that a pseudo-locked group keeps (kernel documentation, "Cache Pseudo-Locking").
#[derive(Clone, Copy, Debug, PartialEq, Eq)]
pub struct Region {
    /// The group that keeps it.
    pub gid: Gid,
    /// The domain of the cache, from 0 to 7.
    pub domain: u8,
    /// The ways that are locked, bit w for way w.
    pub mask: u32,
    /// The number of the first of its lines, each of 64 bytes (this project's profile).
    pub first_line: u64,
}

impl Region {
    /// Whether the group keeps it.
    pub(crate) fn has_gid(&self, gid: Gid) -> bool
        ensures { result ≡ has_gid gid self.now }
    {
        self.gid.0 == gid.0
    }
}

/// What stays at a place when the region of a group goes.
pub(crate) fn without(place: Option<Region>, gid: Gid) -> Option<Region>
    ensures { result ≡ without gid place }
{
    match place {
        Some(region) if region.has_gid(gid) => None,
        _ => place,
    }
}
