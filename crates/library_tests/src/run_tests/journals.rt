//! Threads that share a journal, each with a pass of its own. `bench/journals.py` times these tests.
ghost use Rattle.std.specs.Prelude.{◌<◌};

mod desk;
mod threads;

use seen_journal::Journal;
use std::alloc::Global;
use std::sync::Wait;
use std::thread::Threads;
use threads::{ENTRIES, Load, run_named};

// Whether the entries are each worker's own numbers, each once and in the worker's order.
fn are_in_order(list: &[(u32, u32)]) -> bool {
    let mut next = [0u32; 4];
    for (worker, number) in list {
        match next.get_mut(*worker as usize) {
            Some(place) if *place == *number => *place = number.wrapping_add(1),
            _ => return false,
        }
    }
    next == [ENTRIES; 4]
}

// Whether the closed journal has all that four workers added.
fn is_whole<R: Threads + Wait + Sync>(rt: &R, alloc: Global, load: Load) -> bool
    requires threads { 0 < load.threads }
{
    let quotas = [ENTRIES, ENTRIES, ENTRIES, ENTRIES, 0];
    let Ok((journal, passes)) = Journal::create(alloc, &quotas) else {
        return false;
    };
    let Some(list) = run_named(rt, alloc, journal, passes, load) else {
        return false;
    };
    list.len() == 400_000 && are_in_order(&list)
}

#[test]
fn four_threads_add_side_by_side(rt: HostRuntime) {
    let load = Load {
        threads: 4,
        looks: 0,
    };
    assert!(rt; is_whole(&rt, rt.alloc(), load));
}

#[test]
fn four_threads_add_and_look(rt: HostRuntime) {
    let load = Load {
        threads: 4,
        looks: 4,
    };
    assert!(rt; is_whole(&rt, rt.alloc(), load));
}

#[test]
fn one_thread_adds(rt: HostRuntime) {
    let load = Load {
        threads: 1,
        looks: 0,
    };
    assert!(rt; is_whole(&rt, rt.alloc(), load));
}

#[test]
fn one_thread_adds_and_looks(rt: HostRuntime) {
    let load = Load {
        threads: 1,
        looks: 4,
    };
    assert!(rt; is_whole(&rt, rt.alloc(), load));
}
