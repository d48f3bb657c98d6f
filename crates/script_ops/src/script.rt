//! Scripts.
ghost use Rattle.std.specs.Prelude.{◌≡◌, ◌<◌, ◌≤◌, ◌+◌, length, All, IfSome};
ghost use Rattle.machine.specs.Maps.{parameters_of};
ghost use Rattle.std.specs.List.Sorted.{IsStrictlyIncreasing};
ghost use Rattle.script_ops.specs.Canonical.{IsNamed, AreNamed, IsShort, AreAllShort};
ghost use Rattle.script_ops.specs.Fits.{Fits};
ghost use Rattle.script_ops.specs.declared.limits.TheConstants.{MOST_PHASES, MOST_PHASE_THREADS, MOST_TASKS, MOST_THREADS, MOST_WEIGHT};
ghost use Rattle.script_ops.specs.Values.{threads_of, ops_of, op_at, phase_at, first_thread, IsLawful};

use crate::numbering::{count_threads, find_ops};
use crate::op_at::OpAt;
use crate::ops::Ops;
use crate::phase::Phase;
use machine::Machine;
use path_names::Names;
use std::marker::Model;

/// A script: a machine, its tasks, and phases of threads. Phases are numbered from 0, and threads from 0 through the whole
/// script.
#[derive(Drop)]
pub struct Script {
    machine: Machine,
    tasks: Vec<u32>,
    names: Names,
    phases: Vec<Phase>,
}

impl Model for Script {
    ghost use Rattle.machine.specs.Maps.{parameters_of};
    ghost use Rattle.script_ops.specs.declared.limits.TheConstants.{MOST_PHASES, MOST_PHASE_THREADS, MOST_THREADS, MOST_WEIGHT};
    ghost use Rattle.script_ops.specs.Values.{ScriptValue, IsLawful};

    ghost Value = { ScriptValue };

    ghost view = { λ s. record { machine = parameters_of s.machine; tasks = s.tasks.items; names = s.names; phases = s.phases.items } };

    ghost invariant = { λ s. IsLawful (record { machine = parameters_of s.machine; tasks = s.tasks.items; names = s.names; phases = s.phases.items }) };
}

impl Script {
    /// The script of these parts, which meet the rules of every script.
    pub fn new(machine: Machine, tasks: Vec<u32>, names: Names, phases: Vec<Phase>) -> Script
        requires lawful { IsLawful (record { machine = parameters_of machine; tasks = tasks.items; names = names; phases = phases.items }) }
        ensures { result ≡ record { machine = parameters_of machine; tasks = tasks.items; names = names; phases = phases.items } }
    {
        Script {
            machine,
            tasks,
            names,
            phases,
        }
    }

    /// The machine.
    pub fn machine(&self) -> &Machine
        ensures { parameters_of result.now ≡ self.now.machine }
    {
        &self.machine
    }

    /// The declared tasks, in rising order, at most `MOST_TASKS`.
    pub fn tasks(&self) -> &[u32]
        ensures tasks { result.now ≡ self.now.tasks }
        ensures rising { IsStrictlyIncreasing result.now }
        ensures few { length result.now ≤ MOST_TASKS }
    {
        &self.tasks
    }

    /// The names in the paths of ops.
    pub fn names(&self) -> &Names
        ensures { result.now ≡ self.now.names }
    {
        &self.names
    }

    /// How many phases there are, at most `MOST_PHASES`.
    pub fn phases(&self) -> u32
        ensures phases { result ≡ length self.now.phases }
        ensures few { result ≤ MOST_PHASES }
    {
        self.phases.len() as u32
    }

    /// The numbers of threads, in the order in which they take steps in a phase. A number of no thread of the phase does nothing.
    pub fn order(&self, phase: u32) -> &[u32]
        requires { phase < length self.now.phases }
        ensures { result.now ≡ (phase_at self.now phase).order }
    {
        self.phases[phase as usize].order()
    }

    /// The number of the first thread of a phase, which is how many threads stand before it.
    #[tactic(auto, using(crate::proofs::Threads::counting))]
    pub fn first_thread(&self, phase: u32) -> u32
        requires { phase < length self.now.phases }
        ensures first { result ≡ first_thread self.now phase }
        ensures within { result + length (phase_at self.now phase).threads ≤ length (threads_of self.now) }
        ensures few { result ≤ MOST_THREADS }
    {
        count_threads(&self.phases[..phase as usize])
    }

    /// How many threads a phase has, at most `MOST_PHASE_THREADS`.
    pub fn thread_count(&self, phase: u32) -> u32
        requires { phase < length self.now.phases }
        ensures count { result ≡ length (phase_at self.now phase).threads }
        ensures few { result ≤ MOST_PHASE_THREADS }
    {
        self.phases[phase as usize].thread_count() as u32
    }

    /// How many threads there are through the whole script, at most `MOST_THREADS`.
    pub fn threads(&self) -> u32
        ensures threads { result ≡ length (threads_of self.now) }
        ensures few { result ≤ MOST_THREADS }

        // The rules of every script.
        ensures lawful { IsLawful self.now }
    {
        count_threads(&self.phases)
    }

    /// The ops of a thread, each sweep as its accesses.
    pub fn ops(&self, thread: u32) -> &Ops
        requires { thread < length (threads_of self.now) }
        ensures ops { result.now ≡ ops_of self.now thread }
        ensures named { AreNamed (length self.now.names) result.now }
        ensures short { AreAllShort self.now.names result.now }
        ensures fit { All (Fits self.now.machine self.now.tasks) result.now }
        ensures few { length result.now ≤ MOST_WEIGHT }
    {
        match find_ops(&self.phases, thread as usize) {
            Some(ops) => ops,
            None => unreachable!(),
        }
    }

    /// An op, by the numbers of its thread and its own, or None where there is none.
    pub fn op(&self, thread: u32, op: u32) -> Option<OpAt<'_>>
        ensures op { result ≡ op_at self.now thread op }
        ensures named { IfSome result (λ o. IsNamed (length self.now.names) o) }
        ensures short { IfSome result (λ o. IsShort self.now.names o) }
        ensures fit { IfSome result (λ o. Fits self.now.machine self.now.tasks o) }
    {
        find_ops(&self.phases, thread as usize)?.get(op as usize)
    }
}
