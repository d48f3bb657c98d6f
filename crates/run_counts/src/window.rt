//! Windows of isolation.

use rc_base::Gid;

/// The part of a slice's history that follows a flush or a lock while a group stays exclusive on one mask: what the group's
/// accesses in it hit, and what they would hit in a private cache of as many ways. (This project's profile.)
#[derive(Clone, Copy, Debug, PartialEq, Eq)]
pub struct Window {
    /// The domain, from 0.
    pub domain: u8,
    /// The slice in its domain, from 0.
    pub slice: u8,
    /// The group.
    pub gid: Gid,
    /// How many ways the group's mask has, 1 to 32.
    pub ways: u8,
    /// The position, from 0, of the flush or lock after which the window begins.
    pub from: u32,
    /// The accesses of the group.
    pub accesses: u64,
    /// Those that hit.
    pub hits: u64,
    /// Those that are covered: before them nobody else, in the window or by the lock that opens it, had used any line that the
    /// group uses in the window.
    pub covered: u64,
    /// Those of the covered that hit.
    pub covered_hits: u64,
    /// The covered accesses that hit in a private cache of as many ways.
    pub private: u64,
}
