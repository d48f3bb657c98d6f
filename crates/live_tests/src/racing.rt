//! Two threads race for two lists.
ghost use Rattle.std.specs.Prelude.{◌≡◌, ◌<◌, [], ◌∷◌, IfOk};
ghost use Rattle.shared_parts.specs.Words.{words_for};
ghost use Rattle.live_tests.specs.Merged.{AreInOneOrder, entry, part_of_list, part_of_thread};

use crate::cell::{Cell, Named};
use crate::entry::Entry;
use crate::opening::{Shares, open};
use crate::worker::Worker;
use std::alloc::{AllocError, Global};
use std::marker::Brand;
use std::sync::{Mutex, Wait};
use std::thread;
use std::thread::Threads;

// Adds to one list and then to the other.
fn work<N: Named, const A: usize, const B: usize>(
    rt: &impl Wait,
    one: &Mutex<Cell<N, A>>,
    other: &Mutex<Cell<N, B>>,
    worker: Worker<N>,
) -> Result<Worker<N>, AllocError>
    requires { worker.added ≡ [] }
    ensures thread { IfOk result (λ w. w.thread ≡ worker.thread) }
    ensures added { IfOk result (λ w. w.added ≡ entry A worker.thread 0 ∷ entry B worker.thread 1 ∷ []) }
{
    let mut worker = worker;
    one.lock(rt).add(&mut worker, 0)?;
    other.lock(rt).add(&mut worker, 1)?;
    Ok(worker)
}

// The lists at the end. The four shares together have all parts of one state.
fn close<N: Named>(
    first: Cell<N, 0>,
    second: Cell<N, 1>,
    one: Worker<N>,
    other: Worker<N>,
) -> (Vec<Entry>, Vec<Entry>)
    requires threads { (one.thread ≡ 0) × (other.thread ≡ 1) }
    ensures order { AreInOneOrder result.0.items result.1.items one.added other.added }
    ensures lists { (result.0.items ≡ first) × (result.1.items ≡ second) }
{
    let Cell {
        items,
        mut share,
        of: _,
    } = first;
    let Cell {
        items: more,
        share: mut second,
        of: _,
    } = second;
    let Worker {
        thread: _,
        share: mut mine,
        of: _,
    } = one;
    let Worker {
        thread: _,
        share: mut yours,
        of: _,
    } = other;
    share.absorb(&mut second);
    share.absorb(&mut mine);
    share.absorb(&mut yours);
    share.know();
    (items, more)
}

// The race, over shares that have one table.
fn run<N: Named + Send + Sync, R: Threads + Wait + Sync>(
    rt: &R,
    alloc: Global,
    shares: Shares,
) -> Result<(Vec<Entry>, Vec<Entry>), AllocError>
    requires tables { (shares.first.table ≡ N.table) × (shares.second.table ≡ N.table) × (shares.one.table ≡ N.table) × (shares.other.table ≡ N.table) }
    requires words { N.table.words ≡ words_for 2 }
    requires lists { (shares.first.parts ≡ part_of_list 0 [] ∷ []) × (shares.second.parts ≡ part_of_list 1 [] ∷ []) }
    requires threads { (shares.one.parts ≡ part_of_thread 0 [] ∷ []) × (shares.other.parts ≡ part_of_thread 1 [] ∷ []) }
    ensures order { IfOk result (λ r. AreInOneOrder r.0.items r.1.items (entry 0 0 0 ∷ entry 1 0 1 ∷ []) (entry 1 1 0 ∷ entry 0 1 1 ∷ [])) }
{
    let Shares {
        first,
        second,
        one,
        other,
    } = shares;
    let first = Mutex::new(Cell::<N, 0>::empty(alloc, first));
    let second = Mutex::new(Cell::<N, 1>::empty(alloc, second));
    let one = Worker::<N>::new(0, one);
    let other = Worker::<N>::new(1, other);
    let (a, b) = thread::join(
        rt,
        || -> Result<Worker<N>, AllocError>
            requires { (one.thread ≡ 0) × (one.added ≡ []) }
            ensures { IfOk result (λ w. (w.thread ≡ 0) × (w.added ≡ entry 0 0 0 ∷ entry 1 0 1 ∷ [])) }
        { work(rt, &first, &second, one) },
        || -> Result<Worker<N>, AllocError>
            requires { (other.thread ≡ 1) × (other.added ≡ []) }
            ensures { IfOk result (λ w. (w.thread ≡ 1) × (w.added ≡ entry 1 1 0 ∷ entry 0 1 1 ∷ [])) }
        { work(rt, &second, &first, other) },
    );
    Ok(close(first.into_inner(), second.into_inner(), a?, b?))
}

/// What two threads add to two lists, in opposite orders. Whatever order they take the locks in, there is one order of all entries
/// in which those of each list and those of each thread stand in theirs.
pub fn race<R: Threads + Wait + Sync>(
    rt: &R,
    alloc: Global,
) -> Result<(Vec<Entry>, Vec<Entry>), AllocError>
    ensures order { IfOk result (λ r. AreInOneOrder r.0.items r.1.items (entry 0 0 0 ∷ entry 1 0 1 ∷ []) (entry 1 1 0 ∷ entry 0 1 1 ∷ [])) }
{
    let shares = open(alloc)?;
    run::<Brand, R>(rt, alloc, shares)
}
