//! The group of a directory.
ghost use Rattle.std.specs.Prelude.{◌≡◌};
ghost use Rattle.std.specs.Option.{option_copied};
ghost use Rattle.tree_law.specs.Places.{group_at};

use path_names::DirRef;
use tree_core::{Group, Tree};

/// The record of the group whose directory this is, where it exists.
pub(crate) fn find_group(tree: &Tree, dir: DirRef) -> Option<&Group>
    ensures { option_copied result ≡ group_at tree.now.state dir }
{
    match tree.directory_gid(dir) {
        Some(gid) => tree.groups().get(gid),
        None => None,
    }
}
