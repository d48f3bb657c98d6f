//! A control group that was found by its name.

use path_names::NameId;
use rc_base::Gid;

/// A control group other than the default group, and its class. A pseudo-locked group has none.
#[derive(Clone, Copy, Debug)]
pub(crate) struct Control {
    pub(crate) name: NameId,
    pub(crate) gid: Gid,
    pub(crate) class: Option<u8>,
}
