//! The files that a script on groups with two masks a domain may name.

use path_names::FileKind;
use script_ops::Bytes;

/// A file of a group (kernel documentation, "Resource alloc and monitor groups"; which files there are is this project's profile).
#[derive(Drop)]
pub struct PairFile {
    /// The name of the group's directory, without a slash, and None for the default group.
    pub group: Option<Bytes>,
    /// Which file it is: `schemata`, `mode` or `tasks`.
    pub kind: FileKind,
}
