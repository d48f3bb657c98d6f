//! Looking up a group.
ghost use Rattle.std.specs.Prelude.{◌≡◌, ◌==◌, find, None, Some};
ghost use Rattle.std.specs.List.{list_any};
ghost use Rattle.std.specs.Option.{option_copied};
ghost use Rattle.pair_law.specs.Registers.{has_class as has_own_class};
ghost use Rattle.pair_law.specs.State.{has_gid, has_name};
ghost use Rattle.pair_text.specs.declared.group.PairGroup.{PairGroup};
ghost use Rattle.pair_tree.specs.Places.{FindsPlace};

use pair_text::PairGroup;
use rc_base::{Gid, is_text};
use script_ops::Bytes;

// Whether a group has this name.
fn is_named(g: &PairGroup, name: &[u8]) -> bool
    ensures { result ≡ has_name (Some name.now) g.now }
{
    match &g.name {
        Some(own) => is_text(name, own.as_slice()),
        None => false,
    }
}

/// The place of the group of this name.
pub(crate) fn place_named(groups: &[PairGroup], name: &[u8]) -> Option<usize>
    ensures { FindsPlace (has_name (Some name.now)) groups.now result }
{
    for (place, g) in groups.iter().enumerate() {
        if is_named(g, name) {
            return Some(place);
        }
    }
    None
}

// Whether a group has no name, as the default group.
fn is_unnamed(g: &PairGroup) -> bool
    ensures { result ≡ has_name None g.now }
{
    match &g.name {
        Some(_) => false,
        None => true,
    }
}

// The place of the default group.
fn default_place(groups: &[PairGroup]) -> Option<usize>
    ensures { FindsPlace (has_name None) groups.now result }
{
    for (place, g) in groups.iter().enumerate() {
        if is_unnamed(g) {
            return Some(place);
        }
    }
    None
}

/// The place of the group of a file.
pub(crate) fn place_of(groups: &[PairGroup], name: &Option<Bytes>) -> Option<usize>
    ensures { FindsPlace (has_name name.now) groups.now result }
{
    match name {
        Some(name) => place_named(groups, name.as_slice()),
        None => default_place(groups),
    }
}

/// The group with this serial number.
pub(crate) fn find_gid(groups: &[PairGroup], gid: Gid) -> Option<&PairGroup>
    ensures { option_copied result ≡ find (has_gid gid) groups.now }
{
    groups.iter().find(|g| gid.0 == g.gid.0)
}

/// The group with this class.
pub(crate) fn find_class(groups: &[PairGroup], class: u8) -> Option<&PairGroup>
    ensures { option_copied result ≡ find (has_own_class class) groups.now }
{
    groups.iter().find(|g| class == g.class)
}

/// Whether a group has this class.
pub(crate) fn has_class(groups: &[PairGroup], class: u8) -> bool
    ensures { result ≡ list_any (λ (g : PairGroup). g.class == class) groups.now }
{
    groups.iter().any(|g| g.class == class)
}
