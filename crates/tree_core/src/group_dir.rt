//! The directories of groups that come and go.
ghost use Rattle.std.specs.Prelude.{◌≡◌, MatchOption, false};
ghost use Rattle.tree_core.specs.Directories.{path_of};
ghost use Rattle.tree_law.specs.Existing.{is_group_directory};

use path_names::{DirRef, NameId, Owner, PathRef};

/// The directory of a group, of any but the default group.
#[derive(Clone, Copy, Debug)]
pub(crate) enum GroupDir {
    Control(NameId),
    Monitor(Owner, NameId),
}

/// The group's directory that a path is.
pub(crate) fn group_dir(path: PathRef) -> Option<GroupDir>
    ensures { MatchOption result (is_group_directory path ≡ false) (λ dir. path ≡ path_of dir) }
{
    match path {
        PathRef::Dir(DirRef::Ctrl(name)) => Some(GroupDir::Control(name)),
        PathRef::Dir(DirRef::Mon(owner, name)) => Some(GroupDir::Monitor(owner, name)),
        _ => None,
    }
}
