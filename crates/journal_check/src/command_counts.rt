//! How often each command of a script was taken, while a history of the tree is read.
ghost use Rattle.std.specs.Prelude.{◌≤◌, ◌∷◌, ◌++◌, ◌↔◌, IfOk, IsTrue, List, []};
ghost use Rattle.journal_check.specs.CommandCounts.{AreCountsToTwo, HasUnexpected};
ghost use Rattle.journal_check.specs.ExpectedCommands.{CanTake, IsExpected};
ghost use Rattle.journal_check.specs.Tables.{AreTakenOnce, IsTableOf};
ghost use Rattle.journal_check.specs.Verdicts.{IsVerdict};
ghost use Rattle.machine.specs.Maps.{parameters_of};
ghost use Rattle.run_law.specs.Entries.{entry_value};
ghost use Rattle.run_law.specs.Journals.{JournalsValue};
ghost use Rattle.run_law.specs.Ops.{is_command};
ghost use Rattle.run_law.specs.Quotas.{most_counts};
ghost use Rattle.run_law.specs.TreeHistory.{TreeEntryValue};
ghost use Rattle.script_ops.specs.Values.{ScriptValue};

use crate::commands_once::all_ones;
use crate::op_kinds::is_command;
use crate::op_table::OpTable;
use crate::theorems::unexpected_commands_fail;
use crate::verdict::{Clause, Verdict};
use machine::Machine;
use rc_base::NoMemory;
use run_law::{TreeEntry, most_counts};
use script_ops::{Op, Script};
use std::alloc::Global;
use std::marker::Model;

/// How often each op of a script stands in a history of the tree that comes entry by entry, in 8 bytes for each op, however long the
/// history gets: two and more are not told apart. Contracts see the numbers of each thread.
#[derive(Drop)]
pub struct CommandCounts {
    table: OpTable,
}

impl Model for CommandCounts {
    ghost use Rattle.std.specs.Prelude.{List, ℕ};

    ghost Value = { List (List ℕ) };

    ghost view = { λ c. c.table };
}

// Whether an op is a command that can need so many counts.
fn can_need(m: &Machine, op: &Op, counts: usize) -> bool
    ensures { IsTrue result ↔ (IsTrue (is_command op.now) × (counts ≤ most_counts (parameters_of m.now) op.now)) }
{
    is_command(op) && counts <= most_counts(m, op) as usize
}

// Whether an entry is of a command of the script, with no more counts than it can need.
fn can_take(script: &Script, entry: &TreeEntry) -> bool
    ensures { IsTrue result ↔ CanTake script.now (entry_value entry.now) }
{
    match script.op(entry.thread, entry.op) {
        Some(op) => can_need(script.machine(), op.get(), entry.looks.items().len()),
        None => false,
    }
}

impl CommandCounts {
    /// Before the first entry. NoMemory where there is no room for a number for each op.
    pub fn create(alloc: Global, script: &Script) -> Result<CommandCounts, NoMemory>
        ensures { IfOk result (λ counts. AreCountsToTwo script.now counts []) }
    {
        let table = OpTable::create(alloc, script)?;
        Ok(CommandCounts { table })
    }

    /// Counts the next entry, which may be of no op.
    pub fn add(&mut self, entry: &TreeEntry)
        ensures { (script : ScriptValue) (tree : List TreeEntryValue) → AreCountsToTwo script self.old tree → AreCountsToTwo script self.new (tree ++ entry_value entry.now ∷ []) }
    {
        if let Some(n) = self.table.get(entry.thread, entry.op) {
            if n < 2 {
                self.table.set(entry.thread, entry.op, n + 1);
            }
        }
    }

    /// Whether each command of the script stands among the entries exactly once, in the time of the ops.
    pub fn are_once(&self, script: &Script) -> bool
        requires { IsTableOf script.now self.now }
        ensures { (tree : List TreeEntryValue) → AreCountsToTwo script.now self.now tree → IsTrue result ↔ AreTakenOnce script.now tree }
    {
        all_ones(&self.table, script)
    }

    /// Whether an entry is of a command of the script that does not stand before it, with no more counts than it can need.
    pub fn expects(&self, script: &Script, entry: &TreeEntry) -> bool
        ensures { (before : List TreeEntryValue) → AreCountsToTwo script.now self.now before → IsTrue result ↔ IsExpected script.now before (entry_value entry.now) }
    {
        match self.table.get(entry.thread, entry.op) {
            Some(0) => can_take(script, entry),
            _ => false,
        }
    }

    /// The verdict on journals with a command that is not expected: how often each command stands says which clause is the first that
    /// is false, whatever the slices hold.
    pub fn verdict(&self, script: &Script) -> Verdict
        requires { IsTableOf script.now self.now }
        ensures { (j : JournalsValue) → AreCountsToTwo script.now self.now j.tree → HasUnexpected script.now j.tree → IsVerdict script.now j result }
    {
        // A script that was read is lawful.
        let _threads = script.threads();
        unexpected_commands_fail();
        if self.are_once(script) {
            Verdict::No {
                clause: Clause::TreeIsLegal,
            }
        } else {
            Verdict::No {
                clause: Clause::CommandsStandOnce,
            }
        }
    }
}
