//! Names of things: memory that is used up, groups, modes, and the tag of an access.
ghost use Rattle.std.specs.Prelude.{◌≡◌};
ghost use Rattle.rc_base.specs.Gids.{is_default};

use std::alloc::{AllocError, AllocFailed};

/// Out of memory, and nothing else.
#[derive(Clone, Copy, Debug, PartialEq, Eq)]
pub struct NoMemory;

impl From<AllocError> for NoMemory {
    fn from(_: AllocError) -> Self {
        NoMemory
    }
}

impl<T: Drop> From<AllocFailed<T>> for NoMemory {
    fn from(_: AllocFailed<T>) -> Self {
        NoMemory
    }
}

/// The serial number of a group: 0 is the default group, and a number is never used again (this project's profile).
#[derive(Clone, Copy, Debug, PartialEq, Eq, PartialOrd, Ord)]
pub struct Gid(pub u32);

impl Gid {
    /// The default group's number.
    pub const DEFAULT: Gid = Gid(0);

    /// Whether it is the default group's number.
    pub fn is_default(self) -> bool
        ensures { result ≡ is_default self }
    {
        self.0 == 0
    }
}

/// The modes of a control group, as its `mode` file names them (kernel documentation, "Resource alloc and monitor groups").
#[derive(Clone, Copy, Debug, PartialEq, Eq)]
pub enum Mode {
    /// Its part of the cache may be shared with other groups.
    Shareable,
    /// Its part of the cache overlaps no other shareable or exclusive group's.
    Exclusive,
    /// `pseudo-locksetup`: a region is about to be set up.
    LockSetup,
    /// `pseudo-locked`: a region has been set up.
    Locked,
}

/// What an access knows of the tree of groups: who owns it, where it may fill, and under which number it is counted.
#[derive(Clone, Copy, Debug, PartialEq, Eq)]
pub struct Tag {
    /// How many commands the tree had taken when the tag was read.
    pub epoch: u64,
    /// The control group whose class and mask the access has.
    pub owner: Gid,
    /// The class of service (CLOSID) of the owner, from 0 to 63.
    pub class: u8,
    /// The resource monitoring id (RMID) under which the access is counted, from 0 to 255.
    pub rmid: u16,
    /// The owner's capacity bitmask in the domain; bit w governs way w.
    pub mask: u32,
    /// The cache, from 0 to 7.
    pub domain: u8,
}
