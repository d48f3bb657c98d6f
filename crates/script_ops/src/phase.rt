//! The phases of a script.
ghost use Rattle.std.specs.Prelude.{◌≡◌, ◌<◌, [], length, slice_index_or};

use crate::ops::Ops;
use std::marker::Model;

/// A phase: the order in which its threads take their steps, and the threads.
#[derive(Drop)]
pub struct Phase {
    order: Vec<u32>,
    threads: Vec<Ops>,
}

impl Model for Phase {
    ghost use Rattle.script_ops.specs.Values.{PhaseValue};

    ghost Value = { PhaseValue };

    ghost view = { λ p. record { order = p.order.items; threads = p.threads.items } };
}

impl Phase {
    /// A phase of these threads, which take their steps in this order.
    pub fn new(order: Vec<u32>, threads: Vec<Ops>) -> Phase
        ensures { result ≡ record { order = order.items; threads = threads.items } }
    {
        Phase { order, threads }
    }

    /// The numbers of its threads, in the order in which they take their steps. A number of no thread of it does nothing.
    pub fn order(&self) -> &[u32]
        ensures { result.now ≡ self.now.order }
    {
        &self.order
    }

    /// How many threads it has.
    pub fn thread_count(&self) -> usize
        ensures { result ≡ length self.now.threads }
    {
        self.threads.len()
    }

    /// The ops of a thread of it, numbered from 0 in the phase.
    pub fn ops(&self, thread: usize) -> &Ops
        requires { thread < length self.now.threads }
        ensures { result.now ≡ slice_index_or self.now.threads thread [] }
    {
        &self.threads[thread]
    }
}
