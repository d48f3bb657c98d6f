//! The groups of one task.

use rc_base::Gid;

/// A task and its groups (kernel documentation, "Resource allocation rules" and "Resource monitoring rules").
#[derive(Clone, Copy, Debug, PartialEq, Eq)]
pub struct Binding {
    /// The task's id.
    pub task: u32,
    /// The control group, whose part of the cache the task may fill.
    pub control: Gid,
    /// The group that the task is counted in: the control group, or one of its monitor groups.
    pub monitor: Gid,
}

/// Why a task was not bound. Nothing has changed.
#[derive(Clone, Copy, Debug, PartialEq, Eq)]
pub enum BindFault {
    /// No such task is declared.
    NoTask,
    /// The task belongs to another control group than the monitor group's parent.
    OtherControl,
}
