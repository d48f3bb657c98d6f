//! Whether each entry of an access has what the tree of its epoch gives.
ghost use Rattle.std.specs.Prelude.{◌≡◌, ℕ, ◌+◌, ◌<◌, ◌≤◌, ◌↔◌, Contains, IfOk, IsTrue, [], false, length, take, true};
ghost use Rattle.std.specs.List.Sorted.{IsNonDecreasingBy};
ghost use Rattle.cache_core.specs.declared.entry.What.TheVariants.{Access};
ghost use Rattle.journal_check.specs.Asks.{AreAsks, IsAskOf, IsHeld, IsPaid, epoch_of};
ghost use Rattle.journal_check.specs.CheckReplays.{IsReplayed};
ghost use Rattle.journal_check.specs.Tags.{IsTagOf, access_of};
ghost use Rattle.journal_check.specs.OpKinds.{is_access_of};
ghost use Rattle.journal_check.specs.Tables.{AreTakenOnce};
ghost use Rattle.machine.specs.Slices.{slice_count};
ghost use Rattle.run_law.specs.Clauses.{AccessesAreTrue};
ghost use Rattle.run_law.specs.Journals.{slice_at};
ghost use Rattle.run_law.specs.Owed.{undecided};
ghost use Rattle.run_law.specs.TreeHistory.{IsLegalTree};
ghost use Rattle.script_ops.specs.Fits.{Fits};
ghost use Rattle.script_ops.specs.Values.{op_at};
ghost use Rattle.script_ops.specs.declared.limits.TheConstants.{MOST_WEIGHT};
ghost use Rattle.tree_law.specs.State.{tasks_of};

use crate::asked_tree::AskedTree;
use crate::asks::{Ask, asks_of};
use crate::owed::{is_same, undecided};
use cache_core::{SliceEntry, What};
use rc_base::{NoMemory, Tag};
use run_law::Journals;
use script_ops::{Op, Script};
use std::alloc::Global;
use tree_core::Tree;

// Takes the entry at position k of a legal history once more.
fn take_again(tree: &mut AskedTree, script: &Script, j: &Journals, k: usize)
    requires within { k < length j.now.tree }
    requires legal { IsLegalTree script.now j.now.tree }
    requires few { length j.now.tree ≤ MOST_WEIGHT }
    requires replayed { IsReplayed script.now (take k j.now.tree) tree.old }
    ensures { IsReplayed script.now (take (k + 1) j.now.tree) tree.new }
{
    let entries = j.tree();
    let entry = &entries[k];
    match script.op(entry.thread, entry.op) {
        Some(op) => tree.apply(op.get(), entry.looks.items()),
        None => unreachable!(),
    }
}

// Takes the tree from one position of a legal history to another.
fn advance(tree: &mut AskedTree, script: &Script, j: &Journals, from: usize, to: usize)
    requires order { from ≤ to }
    requires within { to ≤ length j.now.tree }
    requires legal { IsLegalTree script.now j.now.tree }
    requires few { length j.now.tree ≤ MOST_WEIGHT }
    requires replayed { IsReplayed script.now (take from j.now.tree) tree.old }
    ensures { IsReplayed script.now (take to j.now.tree) tree.new }
{
    for k in from..to {
        take_again(tree, script, j, k);
    }
}

// Whether this is an access to a line with a tag.
fn is_tagged(what: What, tag: &Tag, line: u64) -> bool
    ensures { IsTrue result ↔ (undecided what ≡ Access false 0 tag.now.owner tag.now.rmid tag.now.mask line) }
{
    let own = What::Access {
        hit: false,
        way: 0,
        owner: tag.owner,
        rmid: tag.rmid,
        mask: tag.mask,
        line,
    };
    is_same(undecided(what), own)
}

// Whether this is an access to the line of an address, with what the tree gives to a task and a CPU.
fn is_access_tag(tree: &mut AskedTree, task: u32, cpu: u8, addr: u64, what: What) -> bool
    requires task { Contains (tasks_of tree.old.state) task }
    requires cpu { cpu < tree.old.machine.cpus }
    ensures same { tree.new ≡ tree.old }
    ensures answer { IsTrue result ↔ (undecided what ≡ access_of tree.old.machine tree.old.state task cpu addr) }
{
    let tag = tree.tag(task, cpu);
    is_tagged(what, &tag, addr / 64)
}

// Whether this is what the tree gives to an access; of a command nothing is asked.
fn is_tag_of(tree: &mut AskedTree, op: &Op, what: What) -> bool
    requires { Fits tree.old.machine (tasks_of tree.old.state) op.now }
    ensures same { tree.new ≡ tree.old }
    ensures answer { IsTrue result ↔ IsTagOf tree.old.machine tree.old.state op.now what }
{
    match *op {
        Op::Access { task, cpu, addr } => is_access_tag(tree, task, cpu, addr, what),
        _ => true,
    }
}

// Whether an entry of an access, whose epoch the tree has, is true to it.
fn is_paid(tree: &mut AskedTree, script: &Script, j: &Journals, entry: &SliceEntry) -> bool
    requires access { is_access_of (op_at script.now entry.now.thread entry.now.op) ≡ true }
    requires epoch { entry.now.epoch ≤ length j.now.tree }
    requires replayed { IsReplayed script.now (take entry.now.epoch j.now.tree) tree.old }
    ensures same { tree.new ≡ tree.old }
    ensures answer { IsTrue result ↔ IsPaid script.now j.now.tree entry.now }
{
    let _journals = j;
    match script.op(entry.thread, entry.op) {
        Some(op) => is_tag_of(tree, op.get(), entry.what),
        None => true,
    }
}

// How many commands the tree took.
fn tree_len(j: &Journals) -> u64
    ensures { result ≡ length j.now.tree }
{
    let entries = j.tree();
    entries.len() as u64
}

// Whether the tree had the epoch of an entry of an access, and the entry is true to it; then the tree is at that epoch.
fn answer(tree: &mut AskedTree, script: &Script, j: &Journals, at: usize, ask: &Ask) -> bool
    requires legal { IsLegalTree script.now j.now.tree }
    requires few { length j.now.tree ≤ MOST_WEIGHT }
    requires ask { IsAskOf script.now j.now ask.now }
    requires inside { ask.now.slice < length j.now.slices }
    requires position { ask.now.position < length (slice_at j.now ask.now.slice) }
    requires order { at ≤ ask.now.epoch }
    requires replayed { IsReplayed script.now (take at j.now.tree) tree.old }
    ensures answer { IsTrue result ↔ IsHeld script.now j.now ask.now }
    ensures replayed { IsTrue result → IsReplayed script.now (take ask.now.epoch j.now.tree) tree.new }
{
    let len = tree_len(j);
    if ask.epoch > len {
        return false;
    }
    advance(tree, script, j, at, ask.epoch as usize);
    let entries = j.slice(ask.slice);
    let entry = entries[ask.position];
    is_paid(tree, script, j, &entry)
}

// Whether each of these entries of accesses, which are sorted by epoch, is true to its access. The tree is that before all commands.
fn are_answered(tree: &mut AskedTree, script: &Script, j: &Journals, asks: &[Ask]) -> bool
    requires legal { IsLegalTree script.now j.now.tree }
    requires few { length j.now.tree ≤ MOST_WEIGHT }
    requires asks { AreAsks script.now j.now (length j.now.slices) 0 asks.now }
    requires sorted { IsNonDecreasingBy epoch_of asks.now }
    requires replayed { IsReplayed script.now [] tree.old }
    ensures { IsTrue result ↔ AccessesAreTrue script.now j.now }
{
    let mut at = 0;
    for n in 0..asks.len() {
        let ask = asks[n];
        if !answer(tree, script, j, at, &ask) {
            return false;
        }
        at = ask.epoch as usize;
    }
    true
}

/// Whether each entry of an access has the line of its address, and the owner, the RMID and the mask that the tree of its epoch gives
/// to its task and CPU: the entries are sorted by epoch, and the tree goes through its history once more. NoMemory where there is no
/// room for that.
pub fn are_accesses_true(alloc: Global, script: &Script, j: &Journals) -> Result<bool, NoMemory>
    requires all { length j.now.slices ≡ slice_count script.now.machine }
    requires legal { IsLegalTree script.now j.now.tree }
    requires once { AreTakenOnce script.now j.now.tree }
    ensures { IfOk result (λ holds. IsTrue holds ↔ AccessesAreTrue script.now j.now) }
{
    // A script is light, and so a legal history with each of its commands once has few.
    let _threads = script.threads();
    let asks = asks_of(alloc, script, j)?;
    let tree = Tree::create(alloc, script.machine(), script.tasks())?;
    let mut tree = AskedTree::create(tree);
    let holds = are_answered(&mut tree, script, j, asks.as_slice());
    Ok(holds)
}
