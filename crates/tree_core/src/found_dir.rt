//! Directories, once they are found.

use path_names::DirRef;
use rc_base::Gid;

/// A directory that is there, and the group whose directory it is, where it is a group's.
#[derive(Clone, Copy, Debug)]
pub(crate) struct FoundDir {
    pub(crate) dir: DirRef,
    pub(crate) gid: Option<Gid>,
}
