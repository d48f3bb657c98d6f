//! All CPUs with their groups.
ghost use Rattle.cpu_binding.specs.declared.groups.CpuGroups.{CpuGroups};
ghost use Rattle.std.specs.Prelude.{◌≡◌, ◌≢◌, ◌↔◌, ◌<◌, ◌≤◌, ℕ, replicate, length, unwrap_or, slice_index_or, IsErr, OnOk, OnErr};
ghost use Rattle.std.specs.List.{slice_get};
ghost use Rattle.cpu_binding.specs.Groups.{Changes, DropsSome, HasOthers, IsSetOf, after_control, after_monitor, has_control, has_monitor, opening_cpu};
ghost use Rattle.rc_base.specs.Gids.{default_gid};

use crate::groups::CpuGroups;
use crate::tables::{control_set, drops_some, give_control, give_monitor, has_others, monitor_set};
use rc_base::Gid;
use std::marker::Model;

/// The default group would lose a CPU. Nothing has changed.
#[derive(Clone, Copy, Debug, PartialEq, Eq)]
pub struct DropsDefault;

/// A monitor group would hold a CPU that is not its parent's. Nothing has changed.
#[derive(Clone, Copy, Debug, PartialEq, Eq)]
pub struct NotParents;

/// The CPUs of a machine, numbered from 0, each with its groups. Contracts see the list of their groups.
#[derive(Debug, Drop)]
pub struct Cpus {
    groups: [CpuGroups; 64],
    count: usize,
}

impl Model for Cpus {
    ghost use Rattle.std.specs.Prelude.{◌≡◌, List, ◌≤◌, length, take};
    ghost use Rattle.cpu_binding.specs.declared.groups.CpuGroups.{CpuGroups};

    ghost Value = { List CpuGroups };

    ghost view = { λ c. take c.count c.groups };

    ghost invariant = { λ c. (c.count ≤ 64) × (length c.groups ≡ 64) };
}

impl Cpus {
    /// So many CPUs, from 1 to 64, all in the default group.
    pub fn create(cpus: u8) -> Cpus
        requires { cpus ≤ 64 }
        ensures { result ≡ replicate cpus opening_cpu }
    {
        Cpus {
            groups: [CpuGroups::joined(Gid::DEFAULT); 64],
            count: cpus as usize,
        }
    }

    /// Gives a control group this set of CPUs, bit c for CPU c. All its own monitor groups lose their CPUs.
    pub fn set_ctrl(&mut self, group: Gid, set: u64) -> Result<(), DropsDefault>
        ensures ok { OnOk result (Changes (after_control group set) self.old self.new) }
        ensures refused { IsErr result ↔ ((group ≡ default_gid) × DropsSome set self.old) }
        ensures err { OnErr result (self.new ≡ self.old) }
    {
        if group.is_default() && drops_some(&self.groups[..self.count], set) {
            return Err(DropsDefault);
        }
        give_control(&mut self.groups, self.count, group, set);
        Ok(())
    }

    /// Gives a monitor group this set of its parent's CPUs, bit c for CPU c.
    pub fn set_mon(&mut self, parent: Gid, group: Gid, set: u64) -> Result<(), NotParents>
        ensures ok { OnOk result (Changes (after_monitor group set) self.old self.new) }
        ensures refused { IsErr result ↔ HasOthers parent set self.old }
        ensures err { OnErr result (self.new ≡ self.old) }
    {
        if has_others(&self.groups[..self.count], parent, set) {
            return Err(NotParents);
        }
        give_monitor(&mut self.groups, self.count, group, set);
        Ok(())
    }

    /// Gives all CPUs of a control group to the default group.
    pub fn remove_ctrl(&mut self, group: Gid)
        requires { group ≢ default_gid }
        ensures { Changes (after_control group 0) self.old self.new }
    {
        give_control(&mut self.groups, self.count, group, 0);
    }

    /// Takes all CPUs out of a monitor group. They count at its parent, whose CPUs they stay.
    pub fn remove_mon(&mut self, group: Gid, _parent: Gid)
        ensures { Changes (after_monitor group 0) self.old self.new }
    {
        give_monitor(&mut self.groups, self.count, group, 0);
    }

    /// The control group of a CPU.
    pub fn ctrl_of(&self, cpu: u8) -> Gid
        requires { cpu < length self.now }
        ensures { (d : CpuGroups) → result ≡ (slice_index_or self.now cpu d).control }
    {
        self.groups[cpu as usize].control
    }

    /// The group that a CPU counts at: its monitor group where it is in one, and else its control group.
    pub fn mon_of(&self, cpu: u8) -> Gid
        requires { cpu < length self.now }
        ensures { (d : CpuGroups) → result ≡ unwrap_or (slice_index_or self.now cpu d).monitor (slice_index_or self.now cpu d).control }
    {
        let g = self.groups[cpu as usize];
        g.monitor.unwrap_or(g.control)
    }

    /// The CPUs of a control group, bit c for CPU c.
    pub fn ctrl_set(&self, group: Gid) -> u64
        ensures { IsSetOf (has_control group) self.now result }
    {
        control_set(&self.groups[..self.count], group)
    }

    /// The CPUs of a monitor group, bit c for CPU c.
    pub fn mon_set(&self, group: Gid) -> u64
        ensures { IsSetOf (has_monitor group) self.now result }
    {
        monitor_set(&self.groups[..self.count], group)
    }
}
