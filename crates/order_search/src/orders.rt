//! An order of all steps, phase by phase.
ghost use Rattle.std.specs.Prelude.{◌≡◌, length};
ghost use Rattle.machine.specs.Slices.{slice_count};

use crate::attempts::Attempt;
use crate::blocked::blocked_steps;
use crate::played::Played;
use crate::search::Search;
use crate::steps::BlockedStep;
use crate::threads::PhaseThreads;
use rc_base::NoMemory;
use run_law::Journals;
use script_ops::Script;
use std::alloc::Global;

/// What was found for journals.
#[derive(Drop)]
pub enum Found {
    /// For each phase the threads that take a step, one after the other. What a phase does by itself after its list is left out: the
    /// thread that holds the tree goes on until it lets go, and then each thread to its end, in rising order.
    Orders(Vec<Vec<u32>>),
    /// Steps of which each waits for the next one, and the last for the first.
    Blocked(Vec<BlockedStep>),
}

// The steps of a phase so far.
#[derive(Drop)]
struct Steps {
    threads: Vec<u32>,
    // Behind so many steps nobody holds the tree and the numbers of the threads only rise, as they do without a list.
    listed: usize,
    // Whether that place is still to come.
    is_held: bool,
}

impl Steps {
    fn create(alloc: Global) -> Steps {
        Steps {
            threads: Vec::new(alloc),
            listed: 0,
            is_held: false,
        }
    }

    // Adds a step of a thread. It says whether somebody held the tree before it, and after it.
    fn add(&mut self, thread: u32, before: bool, after: bool) -> Result<(), NoMemory> {
        let falls = self.threads.last().is_some_and(|last| thread < *last);
        if falls {
            self.listed = self.threads.len();
            self.is_held = before;
        }
        self.threads.push(thread)?;
        if self.is_held && !after {
            self.listed = self.threads.len();
            self.is_held = false;
        }
        Ok(())
    }

    // The steps that have to be listed.
    fn list(self) -> Vec<u32> {
        let Steps {
            threads,
            listed,
            ..
        } = self;
        let mut list = threads;
        list.truncate(listed);
        list
    }
}

// Takes steps of a thread for as long as it can, at most so many, and says whether it took one.
fn run_on(
    search: &mut Search,
    thread: u32,
    most: usize,
    steps: &mut Steps,
) -> Result<bool, NoMemory> {
    for taken in 0..most {
        let before = search.holder().is_some();
        if search.step(thread) != Attempt::Stepped {
            return Ok(0 < taken);
        }
        steps.add(thread, before, search.holder().is_some())?;
    }
    Ok(0 < most)
}

// Each of these threads in turn takes the steps that it can, and the answer is whether there was one.
fn go_round(
    search: &mut Search,
    threads: PhaseThreads,
    most: usize,
    steps: &mut Steps,
) -> Result<bool, NoMemory> {
    let mut any = false;
    for thread in threads.first..threads.end {
        if run_on(search, thread, most, steps)? {
            any = true;
        }
    }
    Ok(any)
}

// Whether all these threads are at their ends.
fn are_ended(search: &Search, threads: PhaseThreads) -> bool {
    for thread in threads.first..threads.end {
        if search.next_op(thread) < search.moments.ops(thread) {
            return false;
        }
    }
    true
}

// The order of a phase that has these threads, and None where they cannot all come to their ends.
fn phase_order(
    alloc: Global,
    search: &mut Search,
    threads: PhaseThreads,
    most: usize,
) -> Result<Option<Vec<u32>>, NoMemory> {
    let mut steps = Steps::create(alloc);
    for _ in 0..most {
        if !go_round(search, threads, most, &mut steps)? {
            break;
        }
    }
    if are_ended(search, threads) {
        Ok(Some(steps.list()))
    } else {
        Ok(None)
    }
}

/// An order of all steps that makes these journals, which are a run of the script, or steps that wait for one another. It takes time and
/// memory in the number of ops and entries.
pub fn orders_of(alloc: Global, script: &Script, journals: &Journals) -> Result<Found, NoMemory>
    requires { length journals.now.slices ≡ slice_count script.now.machine }
{
    let mut search = Search::create(alloc, script, journals)?;
    let most = search.most_steps(script);
    let played = Played { script, journals };
    let mut orders = Vec::new(alloc);
    for phase in 0..script.phases() {
        let first = script.first_thread(phase);
        let end = first.saturating_add(script.thread_count(phase));
        let threads = PhaseThreads { first, end };
        match phase_order(alloc, &mut search, threads, most)? {
            Some(order) => orders.push(order)?,
            None => return Ok(Found::Blocked(blocked_steps(alloc, &mut search, &played, threads)?)),
        }
    }
    Ok(Found::Orders(orders))
}
