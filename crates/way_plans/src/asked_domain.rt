//! The domain that is told of.

use script_ops::Script;

/// A domain of a script, and of which groups the curves are told.
#[derive(Drop, Clone, Copy)]
pub(crate) struct AskedDomain<'a> {
    /// The script.
    pub script: &'a Script,
    /// Whether groups that have no uses there are left out.
    pub only_used: bool,
    /// The domain, from 0.
    pub domain: u8,
}
