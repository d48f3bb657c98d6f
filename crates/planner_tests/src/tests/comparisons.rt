//! Scripts with their plans, and what these are compared with. The counts were made by hand, and by a few lines of Python: a list for each
//! set, the line used last in front, that loses its last line where it is longer than the ways.

use crate::tests::told_by;
use call_rim::Status;
use std::test::Fail;

// Both groups have the same way, and each use evicts the line of the one before it. With a way each the first group misses each time, and
// the other once. There are three lines and three ways.
const ONE_WAY_FOR_TWO: &[u8] = b"machine sets=1 ways=3
tasks 1 2
phase
thread
mkdir /turns
mkdir /one
write /turns/tasks 1
write /one/tasks 2
write /turns/schemata L3:0=1
write /one/schemata L3:0=1
access 1 0 0
access 2 0 128
access 1 0 64
access 2 0 128
access 1 0 0
access 2 0 128
access 1 0 64
access 2 0 128
";

const ONE_WAY_FOR_TWO_COMPARED: &[u8] = b"domain 0 group 0 /:
ways 1: accesses 0 hits 0 misses 0
ways 2: accesses 0 hits 0 misses 0
ways 3: accesses 0 hits 0 misses 0
domain 0 group 1 /turns:
ways 1: accesses 4 hits 0 misses 4
ways 2: accesses 4 hits 2 misses 2
ways 3: accesses 4 hits 2 misses 2
domain 0 group 2 /one:
ways 1: accesses 4 hits 3 misses 1
ways 2: accesses 4 hits 3 misses 1
ways 3: accesses 4 hits 3 misses 1
domain 0: misses 5
domain 0 as it is: misses 8
domain 0 shared: misses 3
write /schemata L3:0=1
write /turns/schemata L3:0=2
write /one/schemata L3:0=4
write /mode exclusive
write /turns/mode exclusive
write /one/mode exclusive
";

// The uses before the flush count nowhere, and those of the group that is removed are in no plan. But as the script is played these evict
// lines of the others. In set 0 of domain 0 the lines are 0, 2 and 6 of the removed group, 4, 8, 0 and 4; in set 1 they are 1, 3 and 1.
const A_GROUP_IS_REMOVED: &[u8] = b"machine domains=2 cpus=2 sets=2 ways=3 slices=2
tasks 1 2 3
phase
thread
mkdir /a
mkdir /b
mkdir /gone
write /a/tasks 1
write /b/tasks 2
write /gone/tasks 3
access 1 0 0
access 2 1 640
flush
access 1 0 0
access 3 0 128
access 2 0 256
access 1 0 64
access 3 0 384
access 1 0 512
access 2 0 192
access 1 0 0
access 1 0 64
access 2 0 256
access 2 1 0
access 2 1 0
rmdir /gone
";

const A_GROUP_IS_REMOVED_COMPARED: &[u8] = b"domain 0 group 0 /:
ways 1: accesses 0 hits 0 misses 0
ways 2: accesses 0 hits 0 misses 0
ways 3: accesses 0 hits 0 misses 0
domain 0 group 1 /a:
ways 1: accesses 5 hits 1 misses 4
ways 2: accesses 5 hits 2 misses 3
ways 3: accesses 5 hits 2 misses 3
domain 0 group 2 /b:
ways 1: accesses 3 hits 1 misses 2
ways 2: accesses 3 hits 1 misses 2
ways 3: accesses 3 hits 1 misses 2
domain 0: misses 6
domain 0 as it is: misses 7
domain 0 shared: misses 5
domain 1 group 0 /:
ways 1: accesses 0 hits 0 misses 0
ways 2: accesses 0 hits 0 misses 0
ways 3: accesses 0 hits 0 misses 0
domain 1 group 1 /a:
ways 1: accesses 0 hits 0 misses 0
ways 2: accesses 0 hits 0 misses 0
ways 3: accesses 0 hits 0 misses 0
domain 1 group 2 /b:
ways 1: accesses 2 hits 1 misses 1
ways 2: accesses 2 hits 1 misses 1
ways 3: accesses 2 hits 1 misses 1
domain 1: misses 1
domain 1 as it is: misses 1
domain 1 shared: misses 1
write /schemata L3:0=1;1=1
write /a/schemata L3:0=2;1=2
write /b/schemata L3:0=4;1=4
write /mode exclusive
write /a/mode exclusive
write /b/mode exclusive
";

// Two groups have no division of one way, and can share it.
const NO_DIVISION: &[u8] = b"machine sets=1 ways=1
tasks 1
phase
thread
mkdir /other
access 1 0 0
access 1 0 0
";

const NO_DIVISION_COMPARED: &[u8] = b"domain 0 group 0 /:
ways 1: accesses 2 hits 1 misses 1
domain 0 group 1 /other:
ways 1: accesses 0 hits 0 misses 0
domain 0: no division
domain 0 as it is: misses 1
domain 0 shared: misses 1
";

const COMPARED: [(&[u8], &[u8]); 3] = [
    (ONE_WAY_FOR_TWO, ONE_WAY_FOR_TWO_COMPARED),
    (A_GROUP_IS_REMOVED, A_GROUP_IS_REMOVED_COMPARED),
    (NO_DIVISION, NO_DIVISION_COMPARED),
];

#[test]
fn plans_are_compared(rt: HostRuntime) -> Result<(), Fail> {
    for (script, text) in COMPARED {
        let (status, taken) = told_by(rt.alloc(), &["divide", "--compare"], script, 64, &[])?;
        assert_eq!(rt; status, Status::Done);
        assert_eq!(rt; taken.as_slice(), text);
    }
    Ok(())
}
