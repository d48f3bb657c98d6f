//! Control groups that were made.

use path_names::NameId;

/// A control group that was made: its gid, and the name of its directory in the root.
#[derive(Clone, Copy, Debug, PartialEq, Eq)]
pub struct MadeGroup {
    /// Its serial number.
    pub gid: u32,
    /// The name of its directory.
    pub name: NameId,
}
