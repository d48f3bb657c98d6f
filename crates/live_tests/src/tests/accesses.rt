//! What comes of the accesses of the script, by the rules of a slice.
//!
//! The group's task uses three lines in two ways: its third access finds its first line, and the fourth and fifth each take the way
//! of the line that was used longest ago. The other task goes through a hundred lines in the six other ways: it never finds one, and
//! takes the ways in turn.
ghost use Rattle.std.specs.Prelude.{◌<◌, ◌≤◌};

use super::scripts::{SWEEP, SWEEPS};
use cache_core::{SliceEntry, What};
use live_run::Reached;
use rc_base::Gid;
use std::alloc::Global;
use std::test::Fail;

/// An access: its thread, its number there, its line, and what comes of it.
#[derive(Clone, Copy)]
pub struct Access {
    thread: u32,
    op: u32,
    line: u64,
    /// Whether it hits, and its way.
    pub reached: Reached,
}

// The lines of the group's task, and what comes of its accesses.
const OWN: [(u64, Reached); 5] = [
    (0, FILLS_0),
    (1, FILLS_1),
    (0, HITS_0),
    (2, FILLS_1),
    (1, FILLS_0),
];

const FILLS_0: Reached = Reached { hit: false, way: 0 };

const FILLS_1: Reached = Reached { hit: false, way: 1 };

const HITS_0: Reached = Reached { hit: true, way: 0 };

// The first line of the other task, the first of its ways, and how many these are.
const FIRST_LINE: u64 = 1000;

const FIRST_WAY: u8 = 2;

const WAYS: u32 = 6;

// When the first access begins, so many commands were made.
const EPOCH: u64 = 7;

// An access of the group's task, by its number.
fn own_access(op: u32) -> Access
    requires { op ≤ SWEEPS }
{
    let (line, reached) = OWN[op as usize];
    Access {
        thread: 1,
        op,
        line,
        reached,
    }
}

// An access of the other task, by its number.
fn other_access(op: u32) -> Access {
    Access {
        thread: 2,
        op,
        line: FIRST_LINE + u64::from(op % SWEEP),
        reached: Reached {
            hit: false,
            way: FIRST_WAY + (op % WAYS) as u8,
        },
    }
}

// Adds a sweep of the other task.
fn push_sweep(sweep: u32, accesses: &mut Vec<Access>) -> Result<(), Fail>
    requires { sweep < SWEEPS }
{
    for i in 0..SWEEP {
        accesses.push(other_access(sweep * SWEEP + i))?;
    }
    Ok(())
}

/// The accesses, in the order in which the threads take turns.
pub fn expected_accesses(alloc: Global) -> Result<Vec<Access>, Fail> {
    let mut accesses = Vec::new(alloc);
    for i in 0..SWEEPS {
        accesses.push(own_access(i))?;
        push_sweep(i, &mut accesses)?;
    }
    accesses.push(own_access(SWEEPS))?;
    Ok(accesses)
}

/// The entry of an access.
pub fn entry_of(access: Access) -> SliceEntry {
    let (owner, rmid, mask) = if access.thread == 1 {
        (Gid(1), 1, 0x3)
    } else {
        (Gid(0), 0, 0xfc)
    };
    SliceEntry {
        thread: access.thread,
        op: access.op,
        epoch: EPOCH,
        what: What::Access {
            hit: access.reached.hit,
            way: access.reached.way,
            owner,
            rmid,
            mask,
            line: access.line,
        },
    }
}
