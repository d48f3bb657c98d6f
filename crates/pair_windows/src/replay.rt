//! The tree of groups before an op of a script.
ghost use Rattle.std.specs.Prelude.{◌≡◌, ◌+◌, ◌^◌, ◌<◌, ◌≤◌, IfOk, length};
ghost use Rattle.lists.specs.Sums.{one_if};
ghost use Rattle.pair_text.specs.Values.{commands_of};
ghost use Rattle.pair_windows.specs.Replays.{HasTaken, IsPlayable};

use crate::commands::is_command;
use pair_text::PairScript;
use pair_tree::PairTree;
use rc_base::NoMemory;
use std::alloc::Global;
use std::marker::Model;

/// The tree of groups as it is before an op of a script. Contracts see the tree, and the place of the op.
#[derive(Drop)]
pub struct Replay {
    tree: PairTree,
    place: usize,
    epoch: u64,
}

impl Model for Replay {
    ghost use Rattle.std.specs.Prelude.{◌≡◌};
    ghost use Rattle.pair_windows.specs.Replays.{ReplayValue};

    ghost Value = { ReplayValue };

    ghost view = { λ r. record { tree = r.tree; place = r.place } };

    ghost invariant = { λ r. r.epoch ≡ r.tree.epoch };
}

// Takes the op at a place, where it is a command, and says whether it is one.
fn take_at(tree: &mut PairTree, script: &PairScript, place: usize) -> bool
    requires playable { IsPlayable script.now }
    requires taken { HasTaken script.now (record { tree = tree.old; place = place }) }
    requires within { place < length script.now.ops }
    ensures taken { HasTaken script.now (record { tree = tree.new; place = place + 1 }) }
    ensures epoch { tree.new.epoch ≡ tree.old.epoch + one_if result }
    ensures known { tree.new.epoch ≤ length (commands_of script.now) }
    ensures next { place + 1 < 2 ^ 64 }
{
    let op = &script.ops()[place];
    if is_command(op) {
        tree.apply(op);
        return true;
    }
    false
}

impl Replay {
    /// The tree before the first op.
    pub fn create(alloc: Global, script: &PairScript) -> Result<Replay, NoMemory>
        requires { IsPlayable script.now }
        ensures taken { IfOk result (HasTaken script.now) }
        ensures place { IfOk result (λ r. r.place ≡ 0) }
        ensures epoch { IfOk result (λ r. r.tree.epoch ≡ 0) }
    {
        let tree = PairTree::create(alloc, script)?;
        Ok(Replay {
            tree,
            place: 0,
            epoch: 0,
        })
    }

    /// The tree as it is now.
    pub fn tree(&self) -> &PairTree
        ensures { result.now ≡ self.now.tree }
    {
        &self.tree
    }

    /// The place of the next op.
    pub fn place(&self) -> usize
        ensures { result ≡ self.now.place }
    {
        self.place
    }

    /// How many commands were taken.
    pub fn epoch(&self) -> u64
        ensures { result ≡ self.now.tree.epoch }
    {
        self.epoch
    }

    /// Takes the next op: a command changes the tree, and a use does not.
    pub fn take_op(&mut self, script: &PairScript)
        requires playable { IsPlayable script.now }
        requires taken { HasTaken script.now self.old }
        requires within { self.old.place < length script.now.ops }
        ensures taken { HasTaken script.now self.new }
        ensures place { self.new.place ≡ self.old.place + 1 }
        ensures epoch { (self.old.tree.epoch ≤ self.new.tree.epoch) × (self.new.tree.epoch ≤ self.old.tree.epoch + 1) }
    {
        let command = take_at(&mut self.tree, script, self.place);
        self.epoch += u64::from(command);
        self.place += 1;
    }

    /// Takes the ops up to the next command, and the command.
    pub fn take_command(&mut self, script: &PairScript)
        requires playable { IsPlayable script.now }
        requires taken { HasTaken script.now self.old }
        requires some { self.old.tree.epoch < length (commands_of script.now) }
        ensures taken { HasTaken script.now self.new }
        ensures epoch { self.new.tree.epoch ≡ self.old.tree.epoch + 1 }
    {
        let before = self.epoch;
        while self.epoch == before {
            self.take_op(script);
        }
    }

    /// Takes the ops before a place, from where the tree is.
    pub fn reach(&mut self, script: &PairScript, place: usize)
        requires playable { IsPlayable script.now }
        requires taken { HasTaken script.now self.old }
        requires later { self.old.place ≤ place }
        requires within { place ≤ length script.now.ops }
        ensures taken { HasTaken script.now self.new }
        ensures place { self.new.place ≡ place }
    {
        while self.place < place {
            self.take_op(script);
        }
    }
}
