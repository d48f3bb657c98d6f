//! The default group at the start.
ghost use Rattle.std.specs.Prelude.{◌≡◌, ◌≤◌, ◌-◌, ◌++◌, replicate};
ghost use Rattle.machine.specs.Maps.{parameters_of};
ghost use Rattle.group_tree.specs.Opening.{default_group};

use crate::group::Group;
use crate::group_kind::GroupKind;
use machine::Machine;
use rc_base::{Gid, Mode};

/// The default group of a machine.
pub(crate) fn default_group(m: &Machine) -> Group
    ensures { result ≡ default_group (parameters_of m.now) }
{
    Group {
        gid: Gid::DEFAULT,
        name: None,
        kind: GroupKind::Control,
        mode: Mode::Shareable,
        class: Some(0),
        rmid: Some(0),
        masks: in_first_domains(m.domains, m.full()),
    }
}

// This mask in each of the first domains, and 0 in the others.
fn in_first_domains(domains: u8, mask: u32) -> [u32; 8]
    requires { domains ≤ 8 }
    ensures { result ≡ replicate domains mask ++ replicate (8 - domains) 0 }
{
    let mut masks = [0; 8];
    masks[..domains as usize].fill(mask);
    masks
}
