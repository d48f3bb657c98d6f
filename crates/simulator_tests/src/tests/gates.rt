//! Gates that hold workers until another has come to a point.

use rc_stream::{Gate, Point};
use std::sync::atomic::{AtomicBool, AtomicU32, Ordering};

// How often a worker that is held looks for what it waits for.
const TURNS: u32 = 100_000_000;

// How many ops the worker of thread 1 has.
const OPS: u32 = 2;

/// Holds the worker of thread 1 before its first op until that of thread 0 is in its slice, and that one there until thread 1 has
/// done its two ops. What each has seen in the end is noted.
#[derive(Drop)]
pub(crate) struct Crossing {
    in_slice: AtomicBool,
    done: AtomicU32,
    pub(crate) first_was_seen: AtomicBool,
    pub(crate) second_was_seen: AtomicBool,
}

impl Crossing {
    /// Nothing has happened yet.
    pub(crate) fn new() -> Crossing {
        Crossing {
            in_slice: AtomicBool::new(false),
            done: AtomicU32::new(0),
            first_was_seen: AtomicBool::new(false),
            second_was_seen: AtomicBool::new(false),
        }
    }

    // Until thread 0 is in its slice.
    fn await_slice(&self) {
        for _ in 0..TURNS {
            if self.in_slice.load(Ordering::SeqCst) {
                self.first_was_seen.store(true, Ordering::SeqCst);
                return;
            }
        }
    }

    // Until thread 1 has done its ops.
    fn await_ops(&self) {
        for _ in 0..TURNS {
            if self.done.load(Ordering::SeqCst) == OPS {
                self.second_was_seen.store(true, Ordering::SeqCst);
                return;
            }
        }
    }
}

impl Gate for Crossing {
    fn at(&self, point: Point, thread: u32) {
        match (thread, point) {
            (0, Point::InSlice) => {
                self.in_slice.store(true, Ordering::SeqCst);
                self.await_ops();
            }
            (1, Point::BeforeOp) if self.done.load(Ordering::SeqCst) == 0 => self.await_slice(),
            (1, Point::AfterOp) => {
                self.done.fetch_add(1, Ordering::SeqCst);
            }
            _ => {}
        }
    }
}

/// Lets the workers of threads 0 and 1 make their ops in turn, thread 0 first.
#[derive(Drop)]
pub(crate) struct Turns {
    done: AtomicU32,
}

impl Turns {
    /// No op is done yet.
    pub(crate) fn new() -> Turns {
        Turns {
            done: AtomicU32::new(0),
        }
    }

    // Until it is the turn of a thread.
    fn await_turn(&self, thread: u32) {
        for _ in 0..TURNS {
            if self.done.load(Ordering::SeqCst) % 2 == thread {
                return;
            }
        }
    }
}

impl Gate for Turns {
    fn at(&self, point: Point, thread: u32) {
        match point {
            Point::BeforeOp => self.await_turn(thread),
            Point::AfterOp => {
                self.done.fetch_add(1, Ordering::SeqCst);
            }
            Point::InSlice => {}
        }
    }
}
