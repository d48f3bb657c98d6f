//! A script that is cut after any of its bytes.

use crate::faults::told;
use resctrl_top::Status;
use std::alloc::Global;
use std::process::Abort;
use std::sync::Wait;
use std::test::Fail;
use std::thread::Threads;

// A tenant with ways for itself, and a neighbour that goes over a hundred lines.
const TENANT: &[u8] = b"machine sets=1 ways=8
tasks 1 2
phase
thread
write /schemata L3:0=fc
mkdir /p0
write /p0/schemata L3:0=3
write /p0/mode exclusive
write /p0/tasks 1
flush
access 1 0 0
sweep 2 0 64000 100 64
access 1 0 64
access 1 0 0
access 1 0 128
access 1 0 64
";

// A cut script is played, or its last line is refused; where only the end of a line is missing, it is played.
fn ends_at_its_last_line<R: Abort + Threads + Wait + Sync>(
    rt: &R,
    alloc: Global,
    cut: &[u8],
    next: u8,
) -> Result<(), Fail> {
    let told = told(rt, alloc, &["step"], cut)?;
    if told.status == Status::Done {
        return Ok(());
    }
    let line = cut
        .iter()
        .filter(|byte| **byte == b'\n')
        .count()
        .saturating_add(1);
    let refusal = format!(in alloc; "line {line}: ")?;
    assert_eq!(rt; told.status, Status::Refused);
    assert!(rt; told.taken.starts_with(refusal.as_bytes()));
    assert_eq!(rt; told.taken.iter().filter(|byte| **byte == b'\n').count(), 1);
    assert!(rt; next != b'\n' && !cut.ends_with(b"\n"));
    Ok(())
}

#[test]
fn a_script_may_be_cut_anywhere(rt: HostRuntime) -> Result<(), Fail> {
    let none = told(&rt, rt.alloc(), &["step"], b"")?;
    assert_eq!(rt; none.status, Status::Refused);
    assert_eq!(rt;
        none.taken.as_slice(),
        b"line 1: no machine line\n".as_slice()
    );
    let mut cut = Vec::new(rt.alloc());
    for byte in TENANT {
        if !cut.is_empty() {
            ends_at_its_last_line(&rt, rt.alloc(), &cut, *byte)?;
        }
        cut.push(*byte)?;
    }
    let whole = told(&rt, rt.alloc(), &["step", "--quiet", "--windows"], &cut)?;
    assert_eq!(rt; whole.status, Status::Done);
    assert_eq!(rt;
        whole.taken.as_slice(),
        b"window 0.0 group 1 ways 2 from 3: accesses 5 hits 1 covered 5 hits 1 private 1
group 0 /: accesses 100 hits 0 misses 100
group 1 /p0: accesses 5 hits 1 misses 4
domain 0: valid 8 of 8, rmid 0 6, rmid 1 2
total: commands 6 refused 0 accesses 105 hits 1 misses 104
"
            .as_slice()
    );
    Ok(())
}
