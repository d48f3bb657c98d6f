//! Pair scripts.
ghost use Rattle.std.specs.Prelude.{◌≡◌, MatchOption, None, Some};
ghost use Rattle.machine.specs.Maps.{parameters_of};
ghost use Rattle.pair_text.specs.PairKeys.{machines_seen};

use crate::PairOp;
use machine::Machine;
use std::marker::Model;

/// A pair script: its machines, its declared tasks in rising order, and its ops.
#[derive(Drop)]
pub struct PairScript {
    machine: Machine,
    l2: Option<Machine>,
    tasks: Vec<u32>,
    ops: Vec<PairOp>,
}

impl Model for PairScript {
    ghost use Rattle.pair_text.specs.Values.{PairScriptValue};
    ghost use Rattle.pair_text.specs.PairKeys.{machines_seen};

    ghost Value = { PairScriptValue };

    ghost view = { λ s. record { machines = machines_seen s.machine s.l2; tasks = s.tasks.items; ops = s.ops.items } };
}

impl PairScript {
    /// The script of these parts.
    pub(crate) fn new(
        machine: Machine,
        l2: Option<Machine>,
        tasks: Vec<u32>,
        ops: Vec<PairOp>,
    ) -> PairScript
        ensures { result ≡ record { machines = machines_seen machine l2; tasks = tasks.items; ops = ops.items } }
    {
        PairScript {
            machine,
            l2,
            tasks,
            ops,
        }
    }

    /// The machine: its L3 caches, classes and CPUs.
    pub fn machine(&self) -> &Machine
        ensures { parameters_of result.now ≡ self.now.machines.machine }
    {
        &self.machine
    }

    /// The L2 caches, and None of a script on data and code masks.
    pub fn l2(&self) -> Option<&Machine>
        ensures { MatchOption result (self.now.machines.l2 ≡ None) (λ m. self.now.machines.l2 ≡ Some (parameters_of m.now)) }
    {
        self.l2.as_ref()
    }

    /// The declared tasks, in rising order.
    pub fn tasks(&self) -> &[u32]
        ensures { result.now ≡ self.now.tasks }
    {
        &self.tasks
    }

    /// The ops.
    pub fn ops(&self) -> &[PairOp]
        ensures { result.now ≡ self.now.ops }
    {
        &self.ops
    }
}
