//! Exports of what threads play, worked out by hand, and a gate at which two of them meet.

use crate::tests::calls::{EXPORT, SCRIPT};
use crate::tests::words;
use check_top::{CheckStatus, check_top};
use rc_stream::{Gate, MemSink, MemSource, OpenGate, Point};
use std::alloc::Global;
use std::sync::Wait;
use std::sync::atomic::{AtomicBool, AtomicU32, Ordering};
use std::test::Fail;
use std::thread::Threads;

// How often a worker that is held looks for what it waits for.
const TURNS: u32 = 100_000_000;

// Holds the worker of thread 1 before its op until that of thread 0 is in its slice, and that one there until thread 1 has done its
// op. How many of the two have seen what they waited for is noted.
#[derive(Drop)]
struct Meeting {
    in_slice: AtomicBool,
    done: AtomicBool,
    seen: AtomicU32,
}

impl Meeting {
    // Nothing has happened yet.
    fn new() -> Meeting {
        Meeting {
            in_slice: AtomicBool::new(false),
            done: AtomicBool::new(false),
            seen: AtomicU32::new(0),
        }
    }

    // Until the flag is set.
    fn await_flag(&self, flag: &AtomicBool) {
        for _ in 0..TURNS {
            if flag.load(Ordering::SeqCst) {
                self.seen.fetch_add(1, Ordering::SeqCst);
                return;
            }
        }
    }
}

impl Gate for Meeting {
    fn at(&self, point: Point, thread: u32) {
        match (thread, point) {
            (0, Point::InSlice) => {
                self.in_slice.store(true, Ordering::SeqCst);
                self.await_flag(&self.done);
            }
            (1, Point::BeforeOp) => self.await_flag(&self.in_slice),
            (1, Point::AfterOp) => self.done.store(true, Ordering::SeqCst),
            _ => {}
        }
    }
}

// The status of an export of what threads play under a gate, and what is written.
fn export_of_a_run<R: Threads + Wait + Sync, G: Gate>(
    rt: &R,
    alloc: Global,
    script: &str,
    gate: &G,
) -> Result<(CheckStatus, Vec<u8>), Fail> {
    let mut source = MemSource::create(alloc, script.as_bytes(), 1 << 20, &[])?;
    let mut sink = MemSink::create(alloc, 1 << 14, 4096, &[])?;
    let export = words(alloc, &["export", "run"])?;
    let ended = check_top(rt, alloc, &export, &mut source, &mut sink, gate);
    let taken = Vec::from_slice(alloc, sink.taken())?;
    Ok((ended.status, taken))
}

#[test]
fn runs_are_exported(rt: HostRuntime) -> Result<(), Fail> {
    let (status, taken) = export_of_a_run(&rt, rt.alloc(), SCRIPT, &OpenGate)?;
    assert_eq!(rt; status, CheckStatus::Done);
    assert_eq!(rt; taken.as_slice(), EXPORT.as_bytes());
    Ok(())
}

// An access of each thread, in a domain of its own.
const TWO_DOMAINS: &str = "machine domains=2 sets=1 ways=4
tasks 1
phase
thread
access 1 0 0
thread
access 1 1 0
";

const TWO_DOMAINS_EXPORT: &str = "machine domains=2 sets=1 ways=4
tasks 1
phase
thread
access 1 0 0
thread
access 1 1 0
journal 1
slice 0 0 1
access 0 0 0 0 0 15 0 0 0
slice 1 0 1
access 1 0 0 0 0 15 0 0 0
end
";

#[test]
fn an_exported_run_has_threads_that_meet(rt: HostRuntime) -> Result<(), Fail> {
    let gate = Meeting::new();
    let (status, taken) = export_of_a_run(&rt, rt.alloc(), TWO_DOMAINS, &gate)?;
    assert_eq!(rt; status, CheckStatus::Done);
    assert_eq!(rt; taken.as_slice(), TWO_DOMAINS_EXPORT.as_bytes());
    assert_eq!(rt; gate.seen.load(Ordering::SeqCst), 2);
    Ok(())
}
