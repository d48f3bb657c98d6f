//! Four workers that add to one journal, and meet.
ghost use Rattle.std.specs.Prelude.{◌≡◌, ℕ, ◌<◌, [], ◌∷◌, length, slice_get, slice_index_or, Some, IfSome};
ghost use Rattle.seen_journal.specs.Passes.{new_pass};

use super::desk::{Board, Desk, Named, Worker};
use seen_journal::{Journal, Pass};
use std::alloc::Global;
use std::marker::{Brand, PhantomData};
use std::sync::{Mutex, Wait};
use std::thread;
use std::thread::Threads;

/// How many entries each worker adds.
pub const ENTRIES: u32 = 100_000;

// How many entries a thread adds between two meetings.
const BETWEEN: u32 = 100;

type Entry = (u32, u32);

/// How many threads share the work, and how often a worker looks at the journal after each of its entries.
#[derive(Clone, Copy)]
pub struct Load {
    pub threads: u32,
    pub looks: u32,
}

// A worker looks at the journal.
fn look<N: Named>(rt: &impl Wait, desk: &Mutex<Desk<N>>, worker: &mut Worker<N>, looks: u32) {
    for _ in 0..looks {
        desk.lock(rt).show(worker);
    }
}

// What one worker does: it adds its numbers from 0, and now and then meets the others.
fn work<N: Named>(
    rt: &impl Wait,
    desk: &Mutex<Desk<N>>,
    board: &Mutex<Board<N>>,
    worker: &mut Worker<N>,
    looks: u32,
) {
    for number in 0..worker.left {
        desk.lock(rt).add(worker, number);
        look(rt, desk, worker, looks);
        if number % BETWEEN == 0 {
            board.lock(rt).meet(worker);
        }
    }
}

// All workers work. The journal and the passes come back.
fn run_all<N: Named + Send + Sync, R: Threads + Wait + Sync>(
    rt: &R,
    desk: Desk<N>,
    board: Board<N>,
    mut workers: Vec<Worker<N>>,
    load: Load,
) -> (Desk<N>, Vec<Worker<N>>)
    requires threads { 0 < load.threads }
{
    let desk = Mutex::new(desk);
    let board = Mutex::new(board);
    let slice = workers.as_mut_slice();
    thread::for_each_mut(
        rt,
        slice,
        load.threads as usize,
        &|_, worker| { work(rt, &desk, &board, worker, load.looks) },
    );
    (desk.into_inner(), workers)
}

// A worker with a new pass.
fn new_worker<N: Named>(pass: Pass<Entry>, number: u32) -> Worker<N>
    requires pass { pass ≡ new_pass N.name number }
    requires quota { slice_index_or N.name.quotas number 0 ≡ 100000 }
{
    Worker {
        pass,
        number,
        left: ENTRIES,
        of: PhantomData,
    }
}

// The workers of the first four passes.
fn new_workers<N: Named>(
    alloc: Global,
    passes: (Pass<Entry>, Pass<Entry>, Pass<Entry>, Pass<Entry>),
) -> Option<Vec<Worker<N>>>
    requires quotas { N.name.quotas ≡ 100000 ∷ 100000 ∷ 100000 ∷ 100000 ∷ 0 ∷ [] }
    requires first { passes.0 ≡ new_pass N.name 0 }
    requires second { passes.1 ≡ new_pass N.name 1 }
    requires third { passes.2 ≡ new_pass N.name 2 }
    requires fourth { passes.3 ≡ new_pass N.name 3 }
{
    let (first, second, third, fourth) = passes;
    let mut workers = Vec::with_capacity(alloc, 4).ok()?;
    workers.push_reserved(new_worker(first, 0));
    workers.push_reserved(new_worker(second, 1));
    workers.push_reserved(new_worker(third, 2));
    workers.push_reserved(new_worker(fourth, 3));
    Some(workers)
}

// What four workers add, with the fifth pass on the board.
fn run<N: Named + Send + Sync, R: Threads + Wait + Sync>(
    rt: &R,
    alloc: Global,
    journal: Journal<Entry>,
    passes: Vec<Pass<Entry>>,
    load: Load,
) -> Option<Vec<Entry>>
    requires threads { 0 < load.threads }
    requires journal { journal.name ≡ N.name }
    requires quotas { N.name.quotas ≡ 100000 ∷ 100000 ∷ 100000 ∷ 100000 ∷ 0 ∷ [] }
    requires count { length passes.items ≡ 5 }
    requires passes { (i : ℕ) → i < 5 → slice_get passes.items i ≡ Some (new_pass N.name i) }
{
    let (passes, fifth) = five(passes)?;
    let board = Board {
        pass: fifth,
        of: PhantomData,
    };
    let desk: Desk<N> = Desk {
        journal,
        of: PhantomData,
    };
    let workers = new_workers(alloc, passes)?;
    let (desk, workers) = run_all(rt, desk, board, workers, load);
    close(alloc, desk, workers)
}

// The passes of a list of five.
fn five(
    mut passes: Vec<Pass<Entry>>,
) -> Option<
    (
        (Pass<Entry>, Pass<Entry>, Pass<Entry>, Pass<Entry>),
        Pass<Entry>,
    ),
>
    requires count { length passes.items ≡ 5 }
    ensures passes { IfSome result (λ r. passes.items ≡ r.0.0 ∷ r.0.1 ∷ r.0.2 ∷ r.0.3 ∷ r.1 ∷ []) }
{
    let fifth = passes.pop()?;
    let fourth = passes.pop()?;
    let third = passes.pop()?;
    let second = passes.pop()?;
    let first = passes.pop()?;
    Some(((first, second, third, fourth), fifth))
}

// Closes the journal.
fn close<N: Named>(alloc: Global, desk: Desk<N>, mut workers: Vec<Worker<N>>) -> Option<Vec<Entry>>
    requires quotas { N.name.quotas ≡ 100000 ∷ 100000 ∷ 100000 ∷ 100000 ∷ 0 ∷ [] }
{
    let fourth = workers.pop()?;
    let third = workers.pop()?;
    let second = workers.pop()?;
    let first = workers.pop()?;
    if [first.number, second.number, third.number, fourth.number] != [0, 1, 2, 3] {
        return None;
    }
    let mut passes = Vec::with_capacity(alloc, 4).ok()?;
    passes.push_reserved(first.pass);
    passes.push_reserved(second.pass);
    passes.push_reserved(third.pass);
    passes.push_reserved(fourth.pass);
    Some(desk.journal.close(passes))
}

/// What four workers add to a new journal. Its name is picked here.
pub fn run_named<R: Threads + Wait + Sync>(
    rt: &R,
    alloc: Global,
    journal: Journal<Entry>,
    passes: Vec<Pass<Entry>>,
    load: Load,
) -> Option<Vec<Entry>>
    requires threads { 0 < load.threads }
    requires quotas { journal.name.quotas ≡ 100000 ∷ 100000 ∷ 100000 ∷ 100000 ∷ 0 ∷ [] }
    requires count { length passes.items ≡ 5 }
    requires passes { (i : ℕ) → i < 5 → slice_get passes.items i ≡ Some (new_pass journal.name i) }
{
    run::<Brand, R>(rt, alloc, journal, passes, load)
}
