//! A script that flushes lines, and its plan. The counts were made by hand.

use crate::tests::told_by;
use call_rim::Status;
use std::test::Fail;

// Lines 0 to 3 are of /a, and line 4 is of /b. With three ways /a has lines 0, 1 and 2 when line 1 is flushed. Line 3 takes its place, so the
// second use of line 0 hits and that of line 1 misses. With fewer ways line 0 is evicted, with more it hits too. The second use of line 4
// misses with any number of ways. All five lines fit into five ways, so all but the one use miss as it is, and in a shared cache.
const LINES_ARE_FLUSHED: &[u8] = b"machine sets=1 ways=5
tasks 1 2
phase
thread
mkdir /a
mkdir /b
write /a/tasks 1
write /b/tasks 2
access 1 0 0
access 1 0 64
access 1 0 128
clflush 64
access 1 0 192
access 1 0 0
access 1 0 64
access 2 0 256
clflush 256
clflush 256
access 2 0 256
";

const LINES_ARE_FLUSHED_COMPARED: &[u8] = b"domain 0 group 0 /:
ways 1: accesses 0 hits 0 misses 0
ways 2: accesses 0 hits 0 misses 0
ways 3: accesses 0 hits 0 misses 0
ways 4: accesses 0 hits 0 misses 0
ways 5: accesses 0 hits 0 misses 0
domain 0 group 1 /a:
ways 1: accesses 6 hits 0 misses 6
ways 2: accesses 6 hits 0 misses 6
ways 3: accesses 6 hits 1 misses 5
ways 4: accesses 6 hits 1 misses 5
ways 5: accesses 6 hits 1 misses 5
domain 0 group 2 /b:
ways 1: accesses 2 hits 0 misses 2
ways 2: accesses 2 hits 0 misses 2
ways 3: accesses 2 hits 0 misses 2
ways 4: accesses 2 hits 0 misses 2
ways 5: accesses 2 hits 0 misses 2
domain 0: misses 7
domain 0 as it is: misses 7
domain 0 shared: misses 7
write /schemata L3:0=01
write /a/schemata L3:0=0e
write /b/schemata L3:0=10
write /mode exclusive
write /a/mode exclusive
write /b/mode exclusive
";

#[test]
fn flushed_lines_are_counted(rt: HostRuntime) -> Result<(), Fail> {
    let (status, taken) = told_by(
        rt.alloc(),
        &["divide", "--compare"],
        LINES_ARE_FLUSHED,
        64,
        &[],
    )?;
    assert_eq!(rt; status, Status::Done);
    assert_eq!(rt; taken.as_slice(), LINES_ARE_FLUSHED_COMPARED);
    Ok(())
}
