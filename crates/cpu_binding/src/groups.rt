//! The groups of one CPU.
ghost use Rattle.std.specs.Prelude.{◌≡◌};
ghost use Rattle.cpu_binding.specs.Groups.{has_control, has_monitor, joined};

use rc_base::Gid;

/// The groups of a CPU (kernel documentation, "Resource allocation rules" and "Resource monitoring rules").
#[derive(Clone, Copy, Debug, PartialEq, Eq)]
pub struct CpuGroups {
    /// The control group that the CPU belongs to.
    pub control: Gid,
    /// The monitor group of it that the CPU is in, if it is in one.
    pub monitor: Option<Gid>,
}

impl CpuGroups {
    /// A CPU of this control group that is in no monitor group.
    pub(crate) fn joined(group: Gid) -> CpuGroups
        ensures { result ≡ joined group }
    {
        CpuGroups {
            control: group,
            monitor: None,
        }
    }

    /// Whether this is its control group.
    pub(crate) fn has_control(self, group: Gid) -> bool
        ensures { result ≡ has_control group self }
    {
        self.control.0 == group.0
    }

    /// Whether this is its monitor group.
    pub(crate) fn has_monitor(self, group: Gid) -> bool
        ensures { result ≡ has_monitor group self }
    {
        match self.monitor {
            Some(monitor) => monitor.0 == group.0,
            None => false,
        }
    }
}
