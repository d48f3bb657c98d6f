//! The two kinds of group.
ghost use Rattle.std.specs.Prelude.{◌≡◌};
ghost use Rattle.group_tree.specs.Records.{is_control};

use rc_base::Gid;

/// The kind of a group (kernel documentation, "Resource alloc and monitor groups").
#[derive(Clone, Copy, Debug, PartialEq, Eq)]
pub enum GroupKind {
    /// A directory made in the root (CTRL_MON), or the root itself. It has a part of each cache of its own.
    Control,
    /// A directory made in `mon_groups` (MON). It counts for a part of its parent's tasks and CPUs.
    Monitor {
        /// The control group that it belongs to.
        parent: Gid,
    },
}

impl GroupKind {
    /// Whether the kind is Control.
    pub(crate) fn is_control(self) -> bool
        ensures { result ≡ is_control self }
    {
        match self {
            GroupKind::Control => true,
            GroupKind::Monitor { .. } => false,
        }
    }
}
