//! Two tenants with ways for themselves, beside an administrator who changes the mask of others, at once or after some time.

use crate::faults::{Ending, told, told_by};
use rc_stream::{Gate, Point};
use resctrl_top::Status;
use std::alloc::Global;
use std::process::Abort;
use std::sync::atomic::{AtomicU32, Ordering};
use std::test::Fail;

// The lines of both tenants are in the one set.
const IN_ONE_SLICE: &[u8] = b"machine sets=1 ways=8
tasks 1 2 3
phase
thread
write /schemata L3:0=f0
mkdir /a
write /a/schemata L3:0=3
write /a/mode exclusive
write /a/tasks 1
mkdir /b
write /b/schemata L3:0=c
write /b/mode exclusive
write /b/tasks 2
flush
phase
thread
access 1 0 0
access 1 0 64
access 1 0 0
access 1 0 128
access 1 0 64
thread
access 2 0 640
access 2 0 704
access 2 0 640
access 2 0 768
access 2 0 704
thread
";

// The lines of both tenants are in the first of two slices.
const IN_THE_FIRST_SLICE: &[u8] = b"machine sets=2 slices=2 ways=8
tasks 1 2 3
phase
thread
write /schemata L3:0=f0
mkdir /a
write /a/schemata L3:0=3
write /a/mode exclusive
write /a/tasks 1
mkdir /b
write /b/schemata L3:0=c
write /b/mode exclusive
write /b/tasks 2
flush
phase
thread
access 1 0 0
access 1 0 128
access 1 0 0
access 1 0 256
access 1 0 128
thread
access 2 0 1280
access 2 0 1408
access 2 0 1280
access 2 0 1536
access 2 0 1408
thread
";

const TWO_CHANGES: &[u8] = b"write /schemata L3:0=80
sweep 3 0 64000 20 64
write /schemata L3:0=f0
sweep 3 0 64000 20 64
";

// The tenants, and an administrator of 420 ops.
fn contended(alloc: Global, tenants: &[u8]) -> Result<Vec<u8>, Fail> {
    let mut script = Vec::from_slice(alloc, tenants)?;
    for _ in 0..10 {
        script.extend_from_slice(TWO_CHANGES)?;
    }
    Ok(script)
}

// Whether a line stands in a text.
fn has_line(text: &[u8], line: &[u8]) -> bool {
    text.split(|byte| *byte == b'\n').any(|other| other == line)
}

// Whether a line of a text begins so.
fn has_line_from(text: &[u8], start: &[u8]) -> bool {
    text.split(|byte| *byte == b'\n')
        .any(|line| line.starts_with(start))
}

// Each tenant had its one hit, and nothing was refused.
fn tenants_are_alone(rt: &impl Abort, told: &Ending) {
    assert_eq!(rt; told.status, Status::Done);
    assert!(rt; has_line(&told.taken, b"group 1 /a: accesses 5 hits 1 misses 4"));
    assert!(rt; has_line(&told.taken, b"group 2 /b: accesses 5 hits 1 misses 4"));
    assert!(rt; has_line_from(&told.taken, b"total: commands 30 refused 0 accesses 410 "));
}

// How often each script is run.
const RUNS: u32 = 20;

#[test]
fn tenants_keep_their_hits_beside_changes(rt: HostRuntime) -> Result<(), Fail> {
    for tenants in [IN_ONE_SLICE, IN_THE_FIRST_SLICE] {
        let script = contended(rt.alloc(), tenants)?;
        for _ in 0..RUNS {
            tenants_are_alone(&rt, &told(&rt, rt.alloc(), &["run"], &script)?);
        }
    }
    Ok(())
}

// How far a counter runs down before each op of the administrator.
const TURNS: u32 = 1_000;

// The administrator's thread, and how many ops it has.
const ADMINISTRATOR: u32 = 3;

const OPS: u32 = 420;

// Lets a counter run down before each op of the administrator, and counts the turns of all.
#[derive(Drop)]
struct Slowly {
    turns: AtomicU32,
}

impl Gate for Slowly {
    fn at(&self, point: Point, thread: u32) {
        if point == Point::BeforeOp && thread == ADMINISTRATOR {
            for _ in 0..TURNS {
                self.turns.fetch_add(1, Ordering::SeqCst);
            }
        }
    }
}

#[test]
fn tenants_keep_their_hits_beside_slow_changes(rt: HostRuntime) -> Result<(), Fail> {
    let script = contended(rt.alloc(), IN_ONE_SLICE)?;
    for _ in 0..RUNS {
        let gate = Slowly {
            turns: AtomicU32::new(0),
        };
        let told = told_by(&rt, rt.alloc(), &["run"], &script, &[], &[], &gate)?;
        tenants_are_alone(&rt, &told);
        assert_eq!(rt; gate.turns.load(Ordering::SeqCst), OPS * TURNS);
    }
    Ok(())
}
