//! The lists for the counts of a thread's commands, whose room is taken before the first step.
ghost use Rattle.std.specs.Prelude.{◌≡◌, ◌+◌, ◌<◌, ◌≤◌, [], ◌∷◌, ◌++◌, length, IfOk};
ghost use Rattle.machine.specs.Maps.{parameters_of};
ghost use Rattle.run_law.specs.Quotas.{commands_of};
ghost use Rattle.run_law.specs.LookLists.{AreReady, HasNoted, rooms_of, spare_in};

use crate::quotas::most_counts;
use machine::Machine;
use rc_base::{LookList, NoMemory};
use script_ops::{Op, Ops};
use std::alloc::Global;
use std::marker::Model;

/// One list for each command that a thread has still to decide, that of its next command last.
#[derive(Drop)]
pub struct LookLists {
    lists: Vec<LookList>,
}

impl Model for LookLists {
    ghost use Rattle.std.specs.Prelude.{List};
    ghost use Rattle.rc_base.specs.Buffers.{Looks};

    ghost Value = { List Looks };

    ghost view = { λ l. l.lists.items };
}

impl LookLists {
    /// One list for each command among these ops, with room for every count it can need. `commands` says how many they are.
    pub fn create(
        alloc: Global,
        m: &Machine,
        ops: &Ops,
        commands: u64,
    ) -> Result<LookLists, NoMemory>
        requires { commands ≡ commands_of ops.now }
        ensures { IfOk result (λ l. AreReady (rooms_of (parameters_of m.now) ops.now) l) }
    {
        let mut lists = Vec::new(alloc);
        if commands == 0 {
            return Ok(LookLists { lists });
        }
        for k in 0..ops.len() {
            let op = ops.at(ops.len() - 1 - k);
            match op.get() {
                Op::Access { .. } => {}
                op => lists.push(LookList::with_room(alloc, most_counts(m, op))?)?,
            }
        }
        Ok(LookLists { lists })
    }

    /// Adds a number to the list of the next command.
    pub fn note(&mut self, lines: u64)
        requires { 0 < spare_in self.old }
        ensures { HasNoted lines self.old self.new }
    {
        let mut list = self.lists.take_last();
        list.push(lines);
        self.lists.push_reserved(list);
    }

    /// Takes the list of the next command.
    pub fn take(&mut self) -> LookList
        requires { 0 < length self.old }
        ensures { self.old ≡ self.new ++ result ∷ [] }
    {
        self.lists.take_last()
    }
}
