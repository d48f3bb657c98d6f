//! The directories of the tree (kernel documentation, "Info directory", "Resource alloc and monitor groups").

use crate::names::NameId;

/// A control group: the default group, or one with a name.
#[derive(Clone, Copy, Debug, PartialEq, Eq)]
pub enum Owner {
    Default,
    Ctrl(NameId),
}

/// A group whose lines are counted: a control group, or a monitor group of a control group.
#[derive(Clone, Copy, Debug, PartialEq, Eq)]
pub enum Holder {
    Control(Owner),
    Monitor(Owner, NameId),
}

/// A directory.
#[derive(Clone, Copy, Debug, PartialEq, Eq)]
pub enum DirRef {
    /// `/`, which is the default group's.
    Root,
    /// `/info`.
    Info,
    /// `/info/L3`.
    InfoL3,
    /// `/info/L3_MON`.
    InfoL3Mon,
    /// `/NAME` of a control group.
    Ctrl(NameId),
    /// `mon_groups` of a control group.
    MonGroups(Owner),
    /// `mon_groups/NAME` of a monitor group.
    Mon(Owner, NameId),
    /// `mon_data` of a group.
    MonData(Holder),
    /// `mon_data/mon_L3_DD` of a group, for the domain of this number.
    MonDomain(Holder, u8),
}
