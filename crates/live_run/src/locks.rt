//! Taking a lock.

use std::sync::{Mutex, MutexGuard, Wait};
use std::thread::yield_now;

// How often a lock is tried before its thread waits for it. Between two tries another thread may run, the holder among them.
const TRIES: u32 = 8;

/// Takes a lock that is mostly held for a short time: tries it for some turns, lets other threads run between them, and only then waits
/// until it is free.
pub(crate) fn lock_soon<'a, C, R: Wait>(cell: &'a Mutex<C>, rt: &R) -> MutexGuard<'a, C> {
    for _ in 0..TRIES {
        if let Some(guard) = cell.try_lock() {
            return guard;
        }
        yield_now();
    }
    cell.lock(rt)
}
