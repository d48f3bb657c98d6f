//! Many entries: of one thread, and of two threads that add beside each other.
ghost use Rattle.std.specs.Prelude.{◌≡◌, ◌<◌, [], ◌∷◌};
ghost use Rattle.shared_parts.specs.Words.{words_for};
ghost use Rattle.live_tests.specs.Merged.{part_of_list, part_of_thread};

use crate::cell::{Cell, Named};
use crate::opening::{Shares, open};
use crate::worker::Worker;
use std::alloc::{AllocError, Global};
use std::marker::Brand;
use std::thread;
use std::thread::Threads;

// Adds so many entries of one thread to one list, and returns how many it has.
fn add_many<N: Named, const I: usize>(
    cell: Cell<N, I>,
    worker: Worker<N>,
    count: u32,
) -> Result<usize, AllocError> {
    let mut cell = cell;
    let mut worker = worker;
    for _ in 0..count {
        cell.add(&mut worker, 0)?;
    }
    Ok(cell.items.len())
}

// One thread adds to list 0, over shares that have one table.
fn run_alone<N: Named>(alloc: Global, shares: Shares, count: u32) -> Result<usize, AllocError>
    requires tables { (shares.first.table ≡ N.table) × (shares.one.table ≡ N.table) }
    requires words { N.table.words ≡ words_for 2 }
    requires first { shares.first.parts ≡ part_of_list 0 [] ∷ [] }
    requires one { shares.one.parts ≡ part_of_thread 0 [] ∷ [] }
{
    let Shares {
        first,
        second: _,
        one,
        other: _,
    } = shares;
    let cell = Cell::<N, 0>::empty(alloc, first);
    add_many(cell, Worker::<N>::new(0, one), count)
}

// Two threads add at the same time, each to a list of its own, over shares that have one table.
fn run_beside<N: Named + Send + Sync, R: Threads + Sync>(
    rt: &R,
    alloc: Global,
    shares: Shares,
    count: u32,
) -> Result<usize, AllocError>
    requires tables { (shares.first.table ≡ N.table) × (shares.second.table ≡ N.table) × (shares.one.table ≡ N.table) × (shares.other.table ≡ N.table) }
    requires words { N.table.words ≡ words_for 2 }
    requires lists { (shares.first.parts ≡ part_of_list 0 [] ∷ []) × (shares.second.parts ≡ part_of_list 1 [] ∷ []) }
    requires threads { (shares.one.parts ≡ part_of_thread 0 [] ∷ []) × (shares.other.parts ≡ part_of_thread 1 [] ∷ []) }
{
    let Shares {
        first,
        second,
        one,
        other,
    } = shares;
    let first = Cell::<N, 0>::empty(alloc, first);
    let second = Cell::<N, 1>::empty(alloc, second);
    let one = Worker::<N>::new(0, one);
    let other = Worker::<N>::new(1, other);
    let (a, b) = thread::join(
        rt,
        || -> Result<usize, AllocError> { add_many(first, one, count) },
        || -> Result<usize, AllocError> { add_many(second, other, count) },
    );
    Ok(a?.min(b?))
}

/// How many entries list 0 has after thread 0 added so many to it.
pub fn add_alone(alloc: Global, count: u32) -> Result<usize, AllocError> {
    let shares = open(alloc)?;
    run_alone::<Brand>(alloc, shares, count)
}

/// How many entries the shorter list has after each of two threads added so many to its own, at the same time.
pub fn add_beside<R: Threads + Sync>(
    rt: &R,
    alloc: Global,
    count: u32,
) -> Result<usize, AllocError> {
    let shares = open(alloc)?;
    run_beside::<Brand, R>(rt, alloc, shares, count)
}
