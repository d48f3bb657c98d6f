//! Traces that were worked out apart.
use rc_base::NoMemory;
use std::alloc::Global;
use std::test::*;
use trace_gen::make;
use trace_gen::theorems::{traces_are_scripts, traces_say_what_is_stated};

const OPENING: &[u8] = b"machine domains=2 sets=256 ways=16 classes=4 rmids=8 cpus=8\n\
tasks 1-4\n\
phase\n\
thread\n\
write /schemata L3:0=ff00;1=ff00\n\
mkdir /g1\n\
write /g1/schemata L3:0=000f;1=000f\n\
write /g1/mode exclusive\n\
mkdir /g2\n\
write /g2/schemata L3:0=00f0;1=00f0\n\
write /g1/tasks 1,3\n\
write /g2/tasks 2,4\n\
flush\n\
phase\n";

const WHOLE_OF_ONE: &[u8] = b"order 3\n\
thread\n\
access 1 0 1073982464\n\
thread\n\
access 2 2 2147514624\n\
thread\n\
access 3 4 3221415616\n\
thread\n\
access 4 6 4295161792\n";

const BEGINNING_OF_SEVEN: &[u8] = b"order 2 4 1 2 1 1 1\n\
thread\n\
access 1 0 1073986048\n\
access 1 0 1073759616\n\
access 1 0 1073759040\n\
access 1 0 1073957376\n\
access 1 0 1073792384\n\
access 1 0 1073984704\n\
access 1 0 1073781056\n\
thread\n\
access 2 2 2147706624\n";

fn one_is(alloc: Global, want: &[u8]) -> Result<bool, NoMemory> {
    let text = make(alloc, 1)?;
    match text.as_slice().strip_prefix(OPENING) {
        Some(rest) => Ok(rest == want),
        None => Ok(false),
    }
}

fn seven_begins(alloc: Global, want: &[u8]) -> Result<bool, NoMemory> {
    let text = make(alloc, 7)?;
    match text.as_slice().strip_prefix(OPENING) {
        Some(rest) => Ok(rest.starts_with(want)),
        None => Ok(false),
    }
}

#[test]
fn traces_are_made(rt: HostRuntime) {
    assert_eq!(rt; one_is(rt.alloc(), WHOLE_OF_ONE), Ok(true));
    assert_eq!(rt; seven_begins(rt.alloc(), BEGINNING_OF_SEVEN), Ok(true));
    traces_are_scripts();
    traces_say_what_is_stated();
}
