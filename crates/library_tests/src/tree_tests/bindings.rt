//! Tasks and CPUs that leave monitor groups, and as many of both as there can be.
ghost use Rattle.std.specs.Prelude.{IfOk};
ghost use Rattle.std.specs.List.Sorted.{IsStrictlyIncreasing};

use cpu_binding::Cpus;
use rc_base::{Gid, NoMemory};
use std::alloc::Global;
use std::process::Abort;
use task_binding::{BindFault, Tasks};

#[test]
fn a_task_that_is_written_to_its_own_group_leaves_its_monitor_group(
    rt: HostRuntime,
) -> Result<(), NoMemory> {
    let mut tasks = Tasks::create(rt.alloc(), [3, 7].as_slice())?;
    assert_eq!(rt; tasks.bind_ctrl(7, Gid(1)), Ok(()));
    assert_eq!(rt; tasks.bind_mon(7, Gid(1), Gid(2)), Ok(()));
    assert_eq!(rt; tasks.mon_member(Gid(2), 0), Some(7));
    assert!(rt; tasks.has_mon_member(Gid(2)));
    assert!(rt; !tasks.has_ctrl_member(Gid(2)));
    assert_eq!(rt; tasks.bind_ctrl(7, Gid(1)), Ok(()));
    assert_eq!(rt; tasks.mon_member(Gid(2), 0), None);
    assert_eq!(rt; tasks.mon_member(Gid(1), 0), Some(7));
    assert!(rt; !tasks.has_mon_member(Gid(2)));
    assert!(rt; tasks.has_ctrl_member(Gid(1)));
    tasks.unbind_ctrl(Gid(1));
    assert!(rt; !tasks.has_ctrl_member(Gid(1)));
    assert_eq!(rt; tasks.ctrl_member(Gid::DEFAULT, 1), Some(7));
    Ok(())
}

// The numbers below 4,096.
fn numbers(alloc: Global) -> Result<Vec<u32>, NoMemory>
    ensures { IfOk result (λ ids. IsStrictlyIncreasing ids.items) }
{
    Ok((0..4_096).collect(alloc)?)
}

#[test]
fn as_many_tasks_as_a_script_can_declare_are_bound(rt: HostRuntime) -> Result<(), NoMemory> {
    let ids = numbers(rt.alloc())?;
    let mut tasks = Tasks::create(rt.alloc(), ids.as_slice())?;
    assert_eq!(rt; tasks.ctrl_member(Gid::DEFAULT, 4_095), Some(4_095));
    assert_eq!(rt; tasks.bind_ctrl(4_096, Gid(1)), Err(BindFault::NoTask));
    // 2^32 and one of the tasks.
    assert_eq!(rt;
        tasks.bind_ctrl(4_294_967_299, Gid(1)),
        Err(BindFault::NoTask)
    );
    assert_eq!(rt; tasks.bind_ctrl(4_095, Gid(1)), Ok(()));
    assert_eq!(rt; tasks.bind_ctrl(0, Gid(1)), Ok(()));
    assert_eq!(rt; tasks.mon_member(Gid(1), 1), Some(4_095));
    assert_eq!(rt; tasks.ctrl_member(Gid::DEFAULT, 4_093), Some(4_094));
    assert_eq!(rt; tasks.ctrl_member(Gid::DEFAULT, 4_094), None);
    Ok(())
}

// Four CPUs, of which group 1 has CPUs 1 and 2, and its monitor group 2 has CPU 1.
fn four_cpus(rt: &impl Abort) -> Cpus {
    let mut cpus = Cpus::create(4);
    assert_eq!(rt; cpus.set_ctrl(Gid(1), 0b0110), Ok(()));
    assert_eq!(rt; cpus.set_mon(Gid(1), Gid(2), 0b0010), Ok(()));
    assert_eq!(rt; cpus.mon_set(Gid(2)), 0b0010);
    cpus
}

#[test]
fn a_group_that_gains_a_cpu_takes_it_from_monitor_groups_too(rt: HostRuntime) {
    let mut cpus = four_cpus(&rt);
    assert_eq!(rt; cpus.set_ctrl(Gid(4), 0b0010), Ok(()));
    assert_eq!(rt; cpus.mon_set(Gid(2)), 0);
    assert_eq!(rt; cpus.ctrl_set(Gid(1)), 0b0100);
}

#[test]
fn a_write_of_the_same_set_empties_the_own_monitor_groups(rt: HostRuntime) {
    let mut cpus = four_cpus(&rt);
    assert_eq!(rt; cpus.set_ctrl(Gid(1), 0b0110), Ok(()));
    assert_eq!(rt; cpus.mon_set(Gid(2)), 0);
    assert_eq!(rt; cpus.ctrl_set(Gid(1)), 0b0110);
}

#[test]
fn cpus_that_a_monitor_group_drops_count_at_its_parent(rt: HostRuntime) {
    let mut cpus = Cpus::create(4);
    assert_eq!(rt; cpus.set_ctrl(Gid(1), 0b0110), Ok(()));
    assert_eq!(rt; cpus.set_mon(Gid(1), Gid(3), 0b0100), Ok(()));
    assert_eq!(rt; cpus.mon_of(2), Gid(3));
    assert_eq!(rt; cpus.set_mon(Gid(1), Gid(3), 0), Ok(()));
    assert_eq!(rt; cpus.mon_of(2), Gid(1));
}

#[test]
fn the_last_of_64_cpus_goes_back_to_the_default_group(rt: HostRuntime) {
    let mut cpus = Cpus::create(64);
    assert_eq!(rt; cpus.set_ctrl(Gid(1), 0xc000_0000_0000_0000), Ok(()));
    assert_eq!(rt; cpus.set_mon(Gid(1), Gid(2), 0x8000_0000_0000_0000), Ok(()));
    assert_eq!(rt; cpus.ctrl_set(Gid::DEFAULT), 0x3fff_ffff_ffff_ffff);
    cpus.remove_mon(Gid(2), Gid(1));
    assert_eq!(rt; cpus.mon_set(Gid(2)), 0);
    assert_eq!(rt; cpus.ctrl_set(Gid(1)), 0xc000_0000_0000_0000);
    cpus.remove_ctrl(Gid(1));
    assert_eq!(rt; cpus.ctrl_set(Gid::DEFAULT), u64::MAX);
}
