//! The masks that the files of a group show.
ghost use Rattle.std.specs.Prelude.{◌≡◌, ◌<◌, ◌≤◌, ◌^◌, ◌++◌, length};
ghost use Rattle.std.specs.List.{All};
ghost use Rattle.schemata_text.specs.declared.assignment.Assignment.{Assignment};
ghost use Rattle.file_view.specs.GroupFiles.{has_region, is_shown, schemata_of, shown_mask};
ghost use Rattle.group_tree.specs.Records.{mask_in};

use rc_base::{Gid, Mode};
use schemata_text::{Assignment, Assignments};
use tree_core::{Group, Tree};

// A group's mask in a domain.
fn mask_in(group: &Group, domain: u8) -> u32
    requires { domain < 8 }
    ensures { result ≡ mask_in domain group.now }
{
    group.masks[domain as usize]
}

/// Whether the region of a domain is a group's.
pub(crate) fn has_region(tree: &Tree, gid: Gid, domain: u8) -> bool
    requires { domain < tree.now.machine.domains }
    ensures { result ≡ has_region tree.now.state gid domain }
{
    match tree.region(domain) {
        Some(region) => region.gid.0 == gid.0,
        None => false,
    }
}

// Whether a group's files show a domain.
fn is_shown(tree: &Tree, group: &Group, domain: u8) -> bool
    requires { domain < tree.now.machine.domains }
    ensures { result ≡ is_shown tree.now.state group.now domain }
{
    match group.mode {
        Mode::Locked => has_region(tree, group.gid, domain),
        Mode::Shareable | Mode::Exclusive | Mode::LockSetup => true,
    }
}

// Adds a group's mask in a domain, where its files show the domain.
fn push_mask(tree: &Tree, group: &Group, domain: u8, all: &mut Assignments)
    requires exists { domain < tree.now.machine.domains }
    requires within { domain < 8 }
    requires place { length all.old.items ≤ domain }
    ensures added { all.new.items ≡ all.old.items ++ shown_mask tree.now.state group.now domain }
    ensures one { length (shown_mask tree.now.state group.now domain) ≤ 1 }
    ensures small { All (λ (a : Assignment). (a.domain < 2 ^ 8) × (a.mask < 2 ^ 32)) (shown_mask tree.now.state group.now domain) }
{
    if is_shown(tree, group, domain) {
        all.push(Assignment {
            domain,
            mask: mask_in(group, domain),
        });
    }
}

/// A group's masks in the domains that its files show, rising.
pub(crate) fn masks_of(tree: &Tree, group: &Group) -> Assignments
    ensures masks { result.items ≡ schemata_of tree.now.machine tree.now.state group.now }
    ensures few { length result.items ≤ 8 }
    ensures small { All (λ (a : Assignment). (a.domain < 2 ^ 8) × (a.mask < 2 ^ 32)) result.items }
{
    let mut all = Assignments::new();
    for domain in 0..tree.machine().domains {
        push_mask(tree, group, domain, &mut all);
    }
    all
}
