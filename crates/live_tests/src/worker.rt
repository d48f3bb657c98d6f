//! A thread that adds entries.
ghost use Rattle.std.specs.Prelude.{◌≡◌, [], ◌∷◌};
ghost use Rattle.live_tests.specs.Merged.{part_of_thread};

use crate::cell::Named;
use crate::merged::Parts;
use std::marker::{Model, PhantomData};

/// A thread, with the share that has its part. Contracts see its number, and what it has added in order.
#[derive(Drop)]
pub struct Worker<N: Named> {
    pub(crate) thread: u64,
    pub(crate) share: Parts,
    pub(crate) of: PhantomData<N>,
}

impl<N: Named> Model for Worker<N> {
    ghost use Rattle.std.specs.Prelude.{◌≡◌, [], ◌∷◌};
    ghost use Rattle.live_tests.specs.Merged.{WorkerValue, entries_in, part_of_thread};

    ghost Value = { WorkerValue };

    ghost view = { λ w. record { thread = w.thread; added = entries_in w.share.parts } };

    ghost invariant = { λ w. (w.share.table ≡ N.table) × (w.share.parts ≡ part_of_thread w.thread (entries_in w.share.parts) ∷ []) };
}

impl<N: Named> Worker<N> {
    /// A thread that has added nothing.
    pub fn new(thread: u64, share: Parts) -> Worker<N>
        requires named { share.table ≡ N.table }
        requires parts { share.parts ≡ part_of_thread thread [] ∷ [] }
        ensures thread { result.thread ≡ thread }
        ensures added { result.added ≡ [] }
    {
        Worker {
            thread,
            share,
            of: PhantomData,
        }
    }
}
