//! Changes between the two steps of an access.

use crate::faults::told;
use resctrl_top::Status;
use std::test::Fail;

// The access tags before each of the three writes, and comes to its slice after it.
const STORM: &[u8] = b"machine sets=1 ways=4
tasks 1
phase
order 1 0 0 0 1 1 0 0 0 1 1 0 0 0 1 1 1
thread
write /schemata L3:0=3
write /schemata L3:0=f
write /schemata L3:0=c
thread
access 1 0 0
";

// Were its tag not found to be stale each time, its entry would stand before that of a later write.
const TOLD_OF_THE_STORM: &[u8] = b"0 0.0 write /schemata L3:0=3: ok
1 0.1 write /schemata L3:0=f: ok
2 0.2 write /schemata L3:0=c: ok
slice 0.0
0 0.0 e1 raise
1 0.1 e2 raise
2 0.2 e3 raise
3 1.0 e3 access group 0 rmid 0 mask c set 0 line 0 fill way 2
group 0 /: accesses 1 hits 0 misses 1
domain 0: valid 1 of 4, rmid 0 1
total: commands 3 refused 0 accesses 1 hits 0 misses 1
";

#[test]
fn an_access_is_stale_three_times(rt: HostRuntime) -> Result<(), Fail> {
    let told = told(&rt, rt.alloc(), &["step", "--journal"], STORM)?;
    assert_eq!(rt; told.status, Status::Done);
    assert_eq!(rt; told.taken.as_slice(), TOLD_OF_THE_STORM);
    Ok(())
}
