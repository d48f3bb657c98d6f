//! The record of a group with two masks for each domain.

use crate::name::GroupName;
use rc_base::{Gid, Mode};

/// What is known of a group besides its tasks.
#[derive(Drop)]
pub struct PairGroup {
    /// Its serial number, 0 for the default group.
    pub gid: Gid,
    /// The name of its directory, and None for the default group, whose directory is the root.
    pub name: Option<GroupName>,
    /// Its mode, which is shareable or exclusive.
    pub mode: Mode,
    /// Its class of service, from 0. With code and data prioritization class n has the machine's CLOSIDs 2n and 2n + 1 (Intel SDM
    /// volume 3, code and data prioritization).
    pub class: u8,
    /// Its capacity bitmasks on the first side, that of domain d at place d: bit w governs way w. It is 0 in a domain that the side
    /// does not have.
    pub first: [u32; 8],
    /// Its capacity bitmasks on the second side, in the same way.
    pub second: [u32; 8],
}

/// The record that stands in a free place.
impl Default for PairGroup {
    fn default() -> Self {
        PairGroup {
            gid: Gid::DEFAULT,
            name: None,
            mode: Mode::Shareable,
            class: 0,
            first: [0; 8],
            second: [0; 8],
        }
    }
}
