//! What keeps a group out of pseudo-locksetup, and in it.

use super::used;
use mode_rules::{Overlap, may_enter_setup, may_leave_setup};
use rc_base::Why;

// Whether it is the default group, how many monitor groups and tasks it has, and its CPUs.
const ENTERING: [(bool, u32, u32, u64, Result<(), Why>); 5] = [
    (true, 1, 1, 1, Err(Why::DefaultGroup)),
    (false, 1, 1, 1, Err(Why::HasMonGroups)),
    (false, 0, 1, 1, Err(Why::HasTasks)),
    (false, 0, 0, 1 << 63, Err(Why::HasCpus)),
    (false, 0, 0, 0, Ok(())),
];

// A region stands against a mask after an exclusive group.
const LEAVING: [(u32, Result<(), Overlap>); 4] = [
    (0x10, Err(Overlap::Region)),
    (0x18, Err(Overlap::Exclusive)),
    (0x3, Ok(())),
    (0x80, Ok(())),
];

#[test]
fn groups_enter_and_leave_setup(rt: HostRuntime) {
    for (is_default, monitors, tasks, cpus, want) in ENTERING {
        assert_eq!(rt; may_enter_setup(is_default, monitors, tasks, cpus), want);
    }
    let others = used(0x80, 0x3, 0xc, 0x30);
    for (mask, want) in LEAVING {
        assert_eq!(rt; may_leave_setup(mask, &others), want, "mask {mask:x}");
    }
}
