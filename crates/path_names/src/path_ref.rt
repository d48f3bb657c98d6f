//! What a path names.

use crate::dirs::DirRef;
use crate::files::FileKind;
use crate::names::NameId;

/// What a well-formed path names, whether the groups in it exist or not.
#[derive(Clone, Copy, Debug, PartialEq, Eq)]
pub enum PathRef {
    /// A directory.
    Dir(DirRef),
    /// A file in a directory.
    File(DirRef, FileKind),
    /// A name in a directory where neither a fixed entry nor a group can have it.
    Free(DirRef, NameId),
    /// A path below a file or below a free name, with the whole path as one name.
    Nowhere(NameId),
}
