//! Walks over the table of the CPUs.
ghost use Rattle.std.specs.Prelude.{◌≡◌, ◌↔◌, ◌≤◌, length, take, IsTrue};
ghost use Rattle.cpu_binding.specs.Groups.{Changes, DropsSome, HasOthers, IsSetOf, after_control, after_monitor, has_control, has_monitor};

use crate::groups::CpuGroups;
use crate::sets::{has_cpu, with_cpu};
use rc_base::Gid;

/// Gives these of the first `count` CPUs to a control group. Its other CPUs go to the default group.
pub(crate) fn give_control(groups: &mut [CpuGroups; 64], count: usize, group: Gid, set: u64)
    requires { count ≤ 64 }
    ensures changes { Changes (after_control group set) (take count groups.old) (take count groups.new) }
    ensures whole { length groups.new ≡ length groups.old }
{
    for cpu in 0..count {
        if has_cpu(set, cpu) {
            groups[cpu] = CpuGroups::joined(group);
        } else if groups[cpu].has_control(group) {
            groups[cpu] = CpuGroups::joined(Gid::DEFAULT);
        }
    }
}

/// Gives these of the first `count` CPUs to a monitor group. Its other CPUs leave it.
pub(crate) fn give_monitor(groups: &mut [CpuGroups; 64], count: usize, group: Gid, set: u64)
    requires { count ≤ 64 }
    ensures changes { Changes (after_monitor group set) (take count groups.old) (take count groups.new) }
    ensures whole { length groups.new ≡ length groups.old }
{
    for cpu in 0..count {
        if has_cpu(set, cpu) {
            groups[cpu].monitor = Some(group);
        } else if groups[cpu].has_monitor(group) {
            groups[cpu].monitor = None;
        }
    }
}

/// Whether some of these CPUs are the default group's and not in the set.
pub(crate) fn drops_some(groups: &[CpuGroups], set: u64) -> bool
    requires { length groups.now ≤ 64 }
    ensures { IsTrue result ↔ DropsSome set groups.now }
{
    for (cpu, g) in groups.iter().enumerate() {
        if g.has_control(Gid::DEFAULT) && !has_cpu(set, cpu) {
            return true;
        }
    }
    false
}

/// Whether some of these CPUs are in the set and not the parent's.
pub(crate) fn has_others(groups: &[CpuGroups], parent: Gid, set: u64) -> bool
    requires { length groups.now ≤ 64 }
    ensures { IsTrue result ↔ HasOthers parent set groups.now }
{
    for (cpu, g) in groups.iter().enumerate() {
        if has_cpu(set, cpu) && !g.has_control(parent) {
            return true;
        }
    }
    false
}

/// The CPUs of a control group.
pub(crate) fn control_set(groups: &[CpuGroups], group: Gid) -> u64
    requires { length groups.now ≤ 64 }
    ensures { IsSetOf (has_control group) groups.now result }
{
    let mut set = 0;
    for (cpu, g) in groups.iter().enumerate() {
        if g.has_control(group) {
            set = with_cpu(set, cpu);
        }
    }
    set
}

/// The CPUs of a monitor group.
pub(crate) fn monitor_set(groups: &[CpuGroups], group: Gid) -> u64
    requires { length groups.now ≤ 64 }
    ensures { IsSetOf (has_monitor group) groups.now result }
{
    let mut set = 0;
    for (cpu, g) in groups.iter().enumerate() {
        if g.has_monitor(group) {
            set = with_cpu(set, cpu);
        }
    }
    set
}
