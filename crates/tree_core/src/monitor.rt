//! A monitor group that was found by its name.

use path_names::{NameId, Owner};
use rc_base::Gid;

/// A monitor group, and the control group that owns it.
#[derive(Clone, Copy, Debug)]
pub(crate) struct Monitor {
    pub(crate) owner: Owner,
    pub(crate) name: NameId,
    pub(crate) parent: Gid,
    pub(crate) gid: Gid,
}
