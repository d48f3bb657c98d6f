//! The tree of groups with two masks for each domain.
ghost use Rattle.std.specs.Prelude.{◌≡◌, ◌+◌, ◌<◌, ◌≤◌, ◌++◌, Contains, IfOk, None, true, length};
ghost use Rattle.pair_law.specs.Bounds.{tasks_of};
ghost use Rattle.pair_law.specs.Registers.{register};
ghost use Rattle.pair_law.specs.State.{opening};
ghost use Rattle.pair_law.specs.Steps.{next};
ghost use Rattle.pair_text.specs.Values.{HasShortName, IsLawful, is_command};
ghost use Rattle.pair_text.specs.declared.limits.TheConstants.{MOST_COMMANDS};
ghost use Rattle.pair_tree.specs.Reads.{text_read};
ghost use Rattle.pair_tree.specs.Tags.{tag_of};
ghost use Rattle.rc_base.specs.declared.text_buf.TheConstants.{TEXT_MAX};

use crate::machines::Machines;
use crate::tables::Tables;
use crate::tag::PairTag;
use pair_text::{PairGroup, PairOp, PairScript, Side};
use rc_base::{NoMemory, Reply, TextBuf};
use std::alloc::Global;
use std::marker::Model;

/// The tree of groups with two masks for each domain. Contracts see its machines, its state, and as `epoch` how many commands it has
/// taken.
#[derive(Drop)]
pub struct PairTree {
    machines: Machines,
    tables: Tables,
    epoch: u64,
}

impl Model for PairTree {
    ghost use Rattle.pair_tree.specs.Kept.{IsKept};
    ghost use Rattle.pair_tree.specs.Tables.{state_of};
    ghost use Rattle.pair_tree.specs.Values.{PairTreeValue};

    ghost Value = { PairTreeValue };

    ghost view = { λ t. record { machines = t.machines; state = state_of t.tables; epoch = t.epoch } };

    ghost invariant = { λ t. IsKept t.machines (state_of t.tables) t.epoch };
}

impl PairTree {
    /// The tree of a script before its first command: the default group alone, which has every task and, on each side, every way of
    /// each cache (kernel documentation, "Resource alloc and monitor groups"). It makes the room for all groups and their names.
    /// NoMemory where there is no such room, or none for the tasks.
    pub fn create(alloc: Global, script: &PairScript) -> Result<PairTree, NoMemory>
        requires lawful { IsLawful script.now }
        ensures machines { IfOk result (λ t. t.machines ≡ script.now.machines) }
        ensures state { IfOk result (λ t. t.state ≡ opening script.now.machines script.now.tasks) }
        ensures epoch { IfOk result (λ t. t.epoch ≡ 0) }
    {
        let machines = Machines::of(script);
        let tables = Tables::create(alloc, &machines, script.tasks())?;
        Ok(PairTree {
            machines,
            tables,
            epoch: 0,
        })
    }

    /// Takes a command: its reply. A refused command leaves the groups as they were; only a refused write of `tasks` keeps the tasks
    /// that it had moved (kernel documentation, "Resource alloc and monitor groups"; this project's profile says which reason answers
    /// which case). It takes no memory.
    pub fn apply(&mut self, op: &PairOp) -> Reply
        requires command { is_command op.now ≡ true }
        requires short { HasShortName op.now }
        requires epoch { self.old.epoch < MOST_COMMANDS }
        ensures reply { result ≡ (next self.old.machines self.old.state op.now).reply }
        ensures tree { self.new ≡ record self.old {
          state = (next self.old.machines self.old.state op.now).state;
          epoch = self.old.epoch + 1;
        } }
    {
        let reply = self.tables.take(&self.machines, op);
        self.epoch += 1;
        reply
    }

    /// The groups in order of creation, the default group first.
    pub fn groups(&self) -> &[PairGroup]
        ensures { result.now ≡ self.now.state.groups }
    {
        self.tables.groups.as_slice()
    }

    /// The tag of an access by a declared task on a CPU that exists: the epoch, the group of the task, its class, and for each side
    /// the domain of the CPU and the group's mask there (Intel SDM volume 3, IA32_PQR_ASSOC).
    pub fn resolve(&self, task: u32, cpu: u8) -> PairTag
        requires task { Contains (tasks_of self.now.state) task }
        requires cpu { cpu < self.now.machines.machine.cpus }
        ensures { result ≡ tag_of self.now.machines self.now.state self.now.epoch task cpu }
    {
        let owner = self.tables.owner_of(task);
        let first = self.machines.domain_of(Side::First, cpu);
        let second = self.machines.domain_of(Side::Second, cpu);
        PairTag {
            epoch: self.epoch,
            owner,
            class: self.tables.class_of(owner),
            masks: [
                self.tables.mask_of(owner, Side::First, first),
                self.tables.mask_of(owner, Side::Second, second),
            ],
            domains: [first, second],
        }
    }

    /// What a register of a domain holds, with code and data prioritization: register 2n has the data mask of the group of class n,
    /// and register 2n + 1 its code mask. None where no group has the class (Intel SDM volume 3, code and data prioritization).
    pub fn register(&self, domain: u8, index: u8) -> Option<u32>
        requires prioritized { self.now.machines.l2 ≡ None }
        requires domain { domain < self.now.machines.machine.domains }
        ensures { result ≡ register self.now.state domain index }
    {
        self.tables.register(domain, index)
    }

    /// Adds the text that a read gives: for `schemata` a line for each side, the first side first. Nothing where the group is not
    /// there, and for an op that is no read (kernel documentation, "Resource alloc and monitor groups").
    pub fn text(&self, op: &PairOp, out: &mut TextBuf)
        requires room { TEXT_MAX ≤ out.old.spare }
        ensures bytes { out.new.bytes ≡ out.old.bytes ++ text_read self.now.machines self.now.state op.now }
        ensures spare { out.new.spare + length (text_read self.now.machines self.now.state op.now) ≡ out.old.spare }
    {
        if let PairOp::Read { file } = op {
            self.tables.text(&self.machines, file, out);
        }
    }
}
