//! Scripts with their plans.

use crate::tests::told_by;
use call_rim::Status;
use std::test::Fail;

// The first group uses nothing, the second two lines in turn, and the third one line again and again.
const THREE_GROUPS: &[u8] = b"machine sets=1 ways=4
tasks 1 2
phase
thread
mkdir /turns
mkdir /one
write /turns/tasks 1
write /one/tasks 2
access 1 0 0
access 1 0 64
access 1 0 0
access 1 0 64
access 2 0 128
access 2 0 128
access 2 0 128
";

const THREE_GROUPS_PLAN: &[u8] = b"domain 0 group 0 /:
ways 1: accesses 0 hits 0 misses 0
ways 2: accesses 0 hits 0 misses 0
ways 3: accesses 0 hits 0 misses 0
ways 4: accesses 0 hits 0 misses 0
domain 0 group 1 /turns:
ways 1: accesses 4 hits 0 misses 4
ways 2: accesses 4 hits 2 misses 2
ways 3: accesses 4 hits 2 misses 2
ways 4: accesses 4 hits 2 misses 2
domain 0 group 2 /one:
ways 1: accesses 3 hits 2 misses 1
ways 2: accesses 3 hits 2 misses 1
ways 3: accesses 3 hits 2 misses 1
ways 4: accesses 3 hits 2 misses 1
domain 0: misses 3
write /schemata L3:0=1
write /turns/schemata L3:0=6
write /one/schemata L3:0=8
write /mode exclusive
write /turns/mode exclusive
write /one/mode exclusive
";

// Both groups are alike, and each mask has two ways at least.
const EXCLUSIVE_GROUP: &[u8] = b"machine domains=2 cpus=2 sets=1 ways=4 min=2
phase
thread
mkdir /own
write /schemata L3:0=c;1=c
write /own/schemata L3:0=3;1=3
write /own/mode exclusive
";

const EXCLUSIVE_GROUP_LINES: &[u8] = b"domain 1: misses 0
write /own/mode shareable
write /schemata L3:0=3;1=3
write /own/schemata L3:0=c;1=c
write /mode exclusive
write /own/mode exclusive
";

// One way is too few for two groups.
const ONE_WAY: &[u8] = b"machine sets=1 ways=1
phase
thread
mkdir /other
";

const ONE_WAY_PLAN: &[u8] = b"domain 0 group 0 /:
ways 1: accesses 0 hits 0 misses 0
domain 0 group 1 /other:
ways 1: accesses 0 hits 0 misses 0
domain 0: no division
";

const PLANS: [(&[u8], &[u8]); 2] = [(THREE_GROUPS, THREE_GROUPS_PLAN), (ONE_WAY, ONE_WAY_PLAN)];

#[test]
fn scripts_have_their_plans(rt: HostRuntime) -> Result<(), Fail> {
    for (script, plan) in PLANS {
        let (status, taken) = told_by(rt.alloc(), &["divide"], script, 64, &[])?;
        assert_eq!(rt; status, Status::Done);
        assert_eq!(rt; taken.as_slice(), plan);
    }
    Ok(())
}

#[test]
fn exclusive_groups_become_shareable_first(rt: HostRuntime) -> Result<(), Fail> {
    let (status, taken) = told_by(rt.alloc(), &["divide"], EXCLUSIVE_GROUP, 64, &[])?;
    assert_eq!(rt; status, Status::Done);
    assert!(rt; taken.as_slice().ends_with(EXCLUSIVE_GROUP_LINES));
    Ok(())
}

#[test]
fn what_is_no_script_is_told(rt: HostRuntime) -> Result<(), Fail> {
    let (status, taken) = told_by(rt.alloc(), &["divide"], b"machine ways=0\n", 1, &[])?;
    assert_eq!(rt; status, Status::Refused);
    assert_eq!(rt; taken.as_slice(), b"line 1: bad machine line\n".as_slice());
    Ok(())
}

#[test]
fn a_script_that_cannot_be_read_is_told(rt: HostRuntime) -> Result<(), Fail> {
    let (status, taken) = told_by(rt.alloc(), &["divide"], ONE_WAY, 8, &[2])?;
    assert_eq!(rt; status, Status::ReadFault);
    assert_eq!(rt; taken.len(), 0);
    Ok(())
}
