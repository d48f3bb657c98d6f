//! Groups that are exclusive.
ghost use Rattle.std.specs.Prelude.{◌≡◌, find, true};
ghost use Rattle.std.specs.Option.{option_copied};
ghost use Rattle.group_tree.specs.Records.{has_gid, has_mode};
ghost use Rattle.rc_base.specs.declared.names.Mode.TheVariants.{Exclusive};
ghost use Rattle.run_windows.specs.OneGroup.{if_exclusive};

use group_tree::{Group, GroupKind};
use rc_base::{Gid, Mode};
use tree_core::Tree;

/// A group that is exclusive, with its masks.
#[derive(Clone, Copy, Debug, PartialEq, Eq, Drop)]
pub(crate) struct ExclusiveGroup {
    /// The group.
    pub gid: Gid,
    /// Its masks, that of domain d at place d.
    pub masks: [u32; 8],
}

// Whether it is an exclusive control group.
fn is_exclusive(group: &Group) -> bool
    ensures { result ≡ has_mode Exclusive group.now }
{
    matches!(group.kind, GroupKind::Control) && matches!(group.mode, Mode::Exclusive)
}

// The group with its masks, where it is exclusive.
fn if_exclusive(group: Option<&Group>) -> Option<ExclusiveGroup>
    ensures { result ≡ if_exclusive (option_copied group.entry) }
{
    match group {
        Some(group) => {
            if is_exclusive(group) {
                Some(ExclusiveGroup {
                    gid: group.gid,
                    masks: group.masks,
                })
            } else {
                None
            }
        }
        None => None,
    }
}

/// The group of this gid with its masks, where it is exclusive in a tree.
pub(crate) fn exclusive_group(tree: &Tree, gid: Gid) -> Option<ExclusiveGroup>
    ensures { result ≡ if_exclusive (find (has_gid gid) tree.now.state.groups) }
{
    if_exclusive(tree.groups().get(gid))
}

/// Whether these are the same group with the same masks.
pub(crate) fn are_same(one: &ExclusiveGroup, other: &ExclusiveGroup) -> bool
    ensures { result ≡ true → one.now ≡ other.now }
{
    one == other
}
