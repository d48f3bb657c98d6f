//! Running threads, and gates that hold them.

use crate::tests::gates::{Crossing, Turns};
use crate::tests::{told_by, words};
use rc_stream::{Gate, MemSink, MemSource, OpenGate};
use resctrl_top::{Status, top};
use std::alloc::Global;
use std::process::Abort;
use std::sync::Wait;
use std::sync::atomic::Ordering;
use std::test::Fail;
use std::thread::Threads;
use top_parts::USAGE;

// The status of a call whose words begin with `run` on a script under a gate, and what is written.
fn run_told<R: Threads + Wait + Sync, G: Gate>(
    rt: &R,
    alloc: Global,
    form: &[&str],
    script: &[u8],
    gate: &G,
) -> Result<(Status, Vec<u8>), Fail> {
    let words = words(alloc, form)?;
    let mut source = MemSource::create(alloc, script, 1 << 20, &[])?;
    let mut sink = MemSink::create(alloc, 4096, 4096, &[])?;
    let ended = top(rt, alloc, &words, &mut source, &mut sink, gate);
    let taken = Vec::from_slice(alloc, sink.taken())?;
    Ok((ended.status, taken))
}

// Each has a thread that is in one slice while the other does all that it does, in the tree and in another slice: of another domain,
// and of the same one.
const TWO_SLICES: [&[u8]; 2] = [
    b"machine domains=2 sets=1 ways=4
tasks 1
phase
thread
access 1 0 0
thread
read /schemata
access 1 1 0
",
    b"machine domains=1 sets=2 slices=2 ways=4
tasks 1
phase
thread
access 1 0 0
thread
read /schemata
access 1 0 64
",
];

// One worker is in a slice while another does all that it does.
fn cross<R: Abort + Threads + Wait + Sync>(
    rt: &R,
    alloc: Global,
    form: &[&str],
    script: &[u8],
) -> Result<(), Fail> {
    let gate = Crossing::new();
    let (status, _) = run_told(rt, alloc, form, script, &gate)?;
    assert_eq!(rt; status, Status::Done);
    assert!(rt; gate.first_was_seen.load(Ordering::SeqCst));
    assert!(rt; gate.second_was_seen.load(Ordering::SeqCst));
    Ok(())
}

#[test]
fn workers_run_beside_each_other(rt: HostRuntime) -> Result<(), Fail> {
    for script in TWO_SLICES {
        cross(&rt, rt.alloc(), &["run"], script)?;
        cross(&rt, rt.alloc(), &["run", "--quiet"], script)?;
    }
    Ok(())
}

// An access of each thread, and a change of the mask between them and two more.
const IN_TURN: &[u8] = b"machine sets=1 ways=4
tasks 1 2
phase
thread
access 1 0 0
write /schemata L3:0=c
access 1 0 64
thread
access 2 0 0
access 2 0 64
mkdir /a
";

const TOLD_IN_TURN: &[u8] = b"0 0.1 write /schemata L3:0=c: ok
1 1.2 mkdir /a: ok
slice 0.0
0 0.0 e0 access group 0 rmid 0 mask f set 0 line 0 fill way 0
1 1.0 e0 access group 0 rmid 0 mask f set 0 line 0 hit way 0
2 0.1 e1 raise
3 1.1 e1 access group 0 rmid 0 mask c set 0 line 1 fill way 2
4 0.2 e1 access group 0 rmid 0 mask c set 0 line 1 hit way 2
group 0 /: accesses 4 hits 2 misses 2
group 1 /a: accesses 0 hits 0 misses 0
domain 0: valid 2 of 4, rmid 0 2
total: commands 2 refused 0 accesses 4 hits 2 misses 2
";

#[test]
fn two_threads_take_turns(rt: HostRuntime) -> Result<(), Fail> {
    let (status, report) = run_told(
        &rt,
        rt.alloc(),
        &["run", "--journal"],
        IN_TURN,
        &Turns::new(),
    )?;
    assert_eq!(rt; status, Status::Done);
    assert_eq!(rt; report.as_slice(), TOLD_IN_TURN);
    Ok(())
}

const ONE_THREAD: &[u8] = b"machine sets=1 ways=4
tasks 1
phase
order 0
thread
access 1 0 0
access 1 0 0
";

// Words that are no form of the call that may run threads.
const NO_FORMS: [&[&str]; 3] = [&["run", "--json", "--json"], &["run", "7"], &["gen", "0"]];

#[test]
fn words_that_are_no_form_run_nothing(rt: HostRuntime) -> Result<(), Fail> {
    for form in NO_FORMS {
        let (status, taken) = run_told(&rt, rt.alloc(), form, ONE_THREAD, &OpenGate)?;
        assert_eq!(rt; status, Status::Usage);
        assert_eq!(rt; taken.as_slice(), USAGE.as_bytes());
    }
    Ok(())
}

#[test]
fn words_that_begin_with_run_are_forms(rt: HostRuntime) -> Result<(), Fail> {
    let (status, report) = run_told(&rt, rt.alloc(), &["run"], ONE_THREAD, &OpenGate)?;
    assert_eq!(rt; status, Status::Done);
    let (_, stepped) = told_by(rt.alloc(), &["step"], ONE_THREAD)?;
    assert_eq!(rt; report.as_slice(), stepped.as_slice());
    Ok(())
}
