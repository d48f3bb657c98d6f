//! The record of one group.
ghost use Rattle.std.specs.Prelude.{◌≡◌, ◌<◌};
ghost use Rattle.group_tree.specs.Records.{blank, mask_in};

use crate::group_kind::GroupKind;
use path_names::NameId;
use rc_base::{Gid, Mode};

/// What is known of a group besides its tasks and CPUs.
#[derive(Clone, Copy, Debug, PartialEq, Eq)]
pub struct Group {
    /// Its serial number, 0 for the default group.
    pub gid: Gid,
    /// The name of its directory, and None for the default group, whose directory is the root.
    pub name: Option<NameId>,
    /// Whether it is a control group or a monitor group.
    pub kind: GroupKind,
    /// The mode of a control group. A monitor group has none, and is listed as shareable.
    pub mode: Mode,
    /// Its class of service (CLOSID), from 0 to 63. A monitor group and a pseudo-locked group have none.
    pub class: Option<u8>,
    /// Its resource monitoring id (RMID), from 0 to 255. A group in pseudo-locksetup or pseudo-locked has none.
    pub rmid: Option<u16>,
    /// Its capacity bitmasks, that of domain d at place d: bit w governs way w. A pseudo-locked group has its region's
    /// mask in the region's domain and 0 elsewhere; a monitor group has 0 everywhere; all groups have 0 in a domain
    /// that the machine does not have.
    pub masks: [u32; 8],
}

/// The record that stands in a free place.
impl Default for Group {
    ghost is_default = { λ g. g ≡ blank };

    fn default() -> Self {
        Group {
            gid: Gid::DEFAULT,
            name: None,
            kind: GroupKind::Control,
            mode: Mode::Shareable,
            class: None,
            rmid: None,
            masks: [0; 8],
        }
    }
}

impl Group {
    /// Its mask in a domain.
    pub(crate) fn mask_in(&self, domain: u8) -> u32
        requires { domain < 8 }
        ensures { result ≡ mask_in domain self.now }
    {
        self.masks[domain as usize]
    }
}
