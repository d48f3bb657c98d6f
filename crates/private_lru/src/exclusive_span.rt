//! A group that has its ways for itself for some time.

use rc_base::Gid;

/// A group that is exclusive on one mask, and the last epoch up to which it stays so.
#[derive(Clone, Copy, Debug, PartialEq, Eq, Drop)]
pub struct ExclusiveSpan {
    /// The last epoch.
    pub last: u64,
    /// The group.
    pub gid: Gid,
    /// Its mask in the domain.
    pub mask: u32,
}
