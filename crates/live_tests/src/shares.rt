//! Races of real threads, and many entries.
use crate::{Entry, add_alone, add_beside, race};
use std::test::Fail;

// How often the race is run.
const RACES: u32 = 2_000;

// The thread of the entry that a list got first.
fn first_thread(list: &[Entry]) -> Option<u64> {
    list.first().map(|entry| entry.thread)
}

// Thread 0 adds to list 0 and then to list 1, thread 1 to list 1 and then to list 0. So list 0 cannot have thread 1 first where
// list 1 has thread 0 first: each of the two would have been before the other.
#[test]
fn two_threads_race(rt: HostRuntime) -> Result<(), Fail> {
    for _ in 0..RACES {
        let (first, second) = race(&rt, rt.alloc())?;
        assert!(rt; first.len() == 2 && second.len() == 2);
        let threads = (first_thread(&first), first_thread(&second));
        assert!(rt; threads != (Some(1), Some(0)));
    }
    Ok(())
}

#[test]
fn one_thread_adds_many(rt: HostRuntime) -> Result<(), Fail> {
    assert!(rt; add_alone(rt.alloc(), 2_000_000)? == 2_000_000);
    Ok(())
}

#[test]
fn two_threads_add_beside_each_other(rt: HostRuntime) -> Result<(), Fail> {
    assert!(rt; add_beside(&rt, rt.alloc(), 2_000_000)? == 2_000_000);
    Ok(())
}
