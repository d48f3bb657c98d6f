//! The tree of groups of a machine.
ghost use Rattle.std.specs.Prelude.{◌≡◌, ◌≤◌, IfOk, length};
ghost use Rattle.std.specs.List.Sorted.{IsStrictlyIncreasing};
ghost use Rattle.machine.specs.Maps.{parameters_of};
ghost use Rattle.script_ops.specs.declared.limits.TheConstants.{MOST_TASKS};
ghost use Rattle.tree_law.specs.State.{opening};
ghost use Rattle.tree_law.specs.Sound.{IsSound};

mod apply;
mod clflush;
mod cpus;
mod entering;
mod existing;
mod flush;
mod found;
mod freed;
mod joining;
mod leaving;
mod lock;
mod mkdir;
mod mkdir_control;
mod mkdir_monitor;
mod mode;
mod needs;
mod overlaps;
mod readers;
mod resolve;
mod rmdir;
mod schemata;
mod space;
mod tasks;
mod threshold;
mod tick;
mod touch;
mod turning;
mod uses;
mod write;

use cpu_binding::Cpus;
use group_tree::Groups;
use hw_ids::{ClassIds, Rmids};
use machine::Machine;
use pseudo_lock::Regions;
use rc_base::{NoMemory, Reply};
use std::alloc::Global;
use std::marker::Model;
use task_binding::Tasks;

/// The tree of groups on a machine. Contracts see its machine, its state, and as `epoch` how many commands it has taken.
#[derive(Drop)]
pub struct Tree {
    machine: Machine,
    groups: Groups,
    tasks: Tasks,
    cpus: Cpus,
    classes: ClassIds,
    rmids: Rmids,
    regions: Regions,
    status: Reply,
    next_gid: u32,
    epoch: u64,
}

impl Model for Tree {
    ghost use Rattle.machine.specs.Maps.{parameters_of};
    ghost use Rattle.tree_core.specs.Kept.{IsKept};
    ghost use Rattle.tree_core.specs.Tables.{state_of, tables};
    ghost use Rattle.tree_core.specs.Values.{TreeValue};

    ghost Value = { TreeValue };

    ghost view = { λ t. record {
      machine = parameters_of t.machine;
      state = state_of (parameters_of t.machine) (tables t.groups t.tasks t.cpus t.classes t.rmids t.regions) t.status t.next_gid;
      epoch = t.epoch;
    } };

    ghost invariant = { λ t. IsKept (parameters_of t.machine)
        (tables t.groups t.tasks t.cpus t.classes t.rmids t.regions)
        (state_of (parameters_of t.machine) (tables t.groups t.tasks t.cpus t.classes t.rmids t.regions) t.status t.next_gid)
        t.epoch };
}

impl Tree {
    /// The opening tree of a machine with these declared tasks, which rise and are at most `MOST_TASKS`: the default group alone,
    /// which owns every task and CPU and has every way of each cache (kernel documentation, "Resource alloc and monitor groups").
    /// NoMemory where there is no room for the tasks.
    pub fn create(alloc: Global, m: &Machine, tasks: &[u32]) -> Result<Tree, NoMemory>
        requires rising { IsStrictlyIncreasing tasks.now }
        requires few { length tasks.now ≤ MOST_TASKS }
        ensures machine { IfOk result (λ t. t.machine ≡ parameters_of m.now) }
        ensures state { IfOk result (λ t. t.state ≡ opening (parameters_of m.now) tasks.now) }
        ensures epoch { IfOk result (λ t. t.epoch ≡ 0) }
        ensures sound { IfOk result (λ t. IsSound t.machine t.state) }
    {
        let tasks = Tasks::create(alloc, tasks)?;
        let groups = Groups::create(alloc, m)?;
        Ok(Tree {
            machine: *m,
            groups,
            tasks,
            cpus: Cpus::create(m.cpus),
            classes: ClassIds::create(m.classes),
            rmids: Rmids::create(m.rmids, m.threshold),
            regions: Regions::create(),
            status: Reply::Ok,
            next_gid: 1,
            epoch: 0,
        })
    }
}
