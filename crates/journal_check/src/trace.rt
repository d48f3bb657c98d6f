//! What each command of the tree's history needed, and what followed it.
ghost use Rattle.std.specs.Prelude.{◌≡◌, ℕ, ◌+◌, ◌<◌, All, IfOk, IsTrue, MatchOption, length, map, take};
ghost use Rattle.journal_check.specs.Tables.{AreTakenOnce};
ghost use Rattle.journal_check.specs.CheckReplays.{IsAnswer, IsReplayed};
ghost use Rattle.journal_check.specs.Traces.{IsTrace, Takes, TakesCommand, TakesEntry};
ghost use Rattle.run_law.specs.Entries.{entry_value};
ghost use Rattle.run_law.specs.Ops.{is_command};
ghost use Rattle.run_law.specs.TreeHistory.{IsLegalTree};
ghost use Rattle.script_ops.specs.Fits.{Fits};
ghost use Rattle.script_ops.specs.declared.limits.TheConstants.{MOST_WEIGHT};
ghost use Rattle.tree_law.specs.LawsCounts.{CanLook};
ghost use Rattle.tree_law.specs.State.{tasks_of};
ghost use Rattle.tree_law.specs.Steps.{needs};

use crate::is_command;
use crate::needs::Needs;
use crate::replies::is_same;
use rc_base::NoMemory;
use run_law::TreeEntry;
use script_ops::{MOST_WEIGHT, Op, Script};
use std::alloc::Global;
use tree_core::{Follow, Tree};

/// What a command needed and what followed it.
#[derive(Drop)]
pub struct Step {
    pub needs: Needs,
    pub follows: Vec<Follow>,
}

// The counts that a command needs.
fn needs_of(alloc: Global, tree: &Tree, op: &Op) -> Result<Needs, NoMemory>
    requires { Fits tree.now.machine (tasks_of tree.now.state) op.now }
    ensures needs { IfOk result (λ v. v ≡ needs tree.now.machine tree.now.state op.now) }
    ensures exist { IfOk result (λ v. All (CanLook tree.now.machine) v) }
{
    let counts = tree.counts(op);
    Ok(Needs::of(alloc, &counts)?)
}

// The follow-ups of a command as a list of its own.
fn follows_of(alloc: Global, after: &[Follow]) -> Result<Vec<Follow>, NoMemory>
    ensures { IfOk result (λ v. v.items ≡ after.now) }
{
    let mut all = Vec::new(alloc);
    for follow in after {
        all.push(*follow)?;
    }
    Ok(all)
}

// Takes a command, where it was given as many counts as it needs and was answered as the tree answers it.
fn take_step(
    alloc: Global,
    tree: &mut Tree,
    op: &Op,
    entry: &TreeEntry,
) -> Result<Option<Step>, NoMemory>
    requires fits { Fits tree.old.machine (tasks_of tree.old.state) op.now }
    requires epoch { tree.old.epoch < MOST_WEIGHT }
    ensures { IfOk result (λ o. MatchOption o
        (IsAnswer tree.old.machine tree.old.state op.now (entry_value entry.now) → ⊥)
        (λ step. Takes tree.old tree.new op.now (entry_value entry.now) step)) }
{
    let needed = needs_of(alloc, tree, op)?;
    let looks = entry.looks.items();
    if looks.len() != needed.as_slice().len() {
        return Ok(None);
    }
    let (reply, after) = tree.apply(op, looks);
    let follows = follows_of(alloc, after.as_slice())?;
    if !is_same(reply, entry.reply) {
        return Ok(None);
    }
    Ok(Some(Step {
        needs: needed,
        follows,
    }))
}

// Takes an op, where it is a command that was answered so.
fn take_op(
    alloc: Global,
    tree: &mut Tree,
    op: &Op,
    entry: &TreeEntry,
) -> Result<Option<Step>, NoMemory>
    requires fits { Fits tree.old.machine (tasks_of tree.old.state) op.now }
    requires epoch { tree.old.epoch < MOST_WEIGHT }
    ensures { IfOk result (λ o. MatchOption o
        (IsTrue (is_command op.now) → IsAnswer tree.old.machine tree.old.state op.now (entry_value entry.now) → ⊥)
        (λ step. TakesCommand tree.old tree.new op.now (entry_value entry.now) step)) }
{
    if !is_command(op) {
        return Ok(None);
    }
    take_step(alloc, tree, op, entry)
}

// Takes the entry at position k, where it may follow those before it.
fn take_entry(
    alloc: Global,
    tree: &mut Tree,
    script: &Script,
    entries: &[TreeEntry],
    k: usize,
) -> Result<Option<Step>, NoMemory>
    requires within { k < length entries.now }
    requires replayed { IsReplayed script.now (take k (map entry_value entries.now)) tree.old }
    requires epoch { tree.old.epoch < MOST_WEIGHT }
    ensures { IfOk result (λ o. MatchOption o
        (IsLegalTree script.now (map entry_value entries.now) → ⊥)
        (λ step. TakesEntry script.now (map entry_value entries.now) k tree.new step)) }
{
    let entry = &entries[k];
    match script.op(entry.thread, entry.op) {
        Some(op) => take_op(alloc, tree, op.get(), entry),
        None => Ok(None),
    }
}

/// What each command of the tree's history needed and what followed it, and `None` where the history is not legal: the tree is
/// taken through it anew, where each command of the script stands in it once. NoMemory where there is no room.
pub fn trace(
    alloc: Global,
    script: &Script,
    entries: &[TreeEntry],
) -> Result<Option<Vec<Step>>, NoMemory>
    requires { AreTakenOnce script.now (map entry_value entries.now) }
    ensures { IfOk result (λ o. MatchOption o
        (IsLegalTree script.now (map entry_value entries.now) → ⊥)
        (λ steps. IsLegalTree script.now (map entry_value entries.now) × IsTrace script.now (map entry_value entries.now) (length entries.now) steps.items)) }
{
    let mut tree = Tree::create(alloc, script.machine(), script.tasks())?;
    // A script is light, and so a legal history with each of its commands once has few.
    let _threads = script.threads();
    if entries.len() > MOST_WEIGHT as usize {
        return Ok(None);
    }
    let mut steps = Vec::new(alloc);
    for k in 0..entries.len() {
        match take_entry(alloc, &mut tree, script, entries, k)? {
            Some(step) => steps.push(step)?,
            None => return Ok(None),
        }
    }
    Ok(Some(steps))
}
