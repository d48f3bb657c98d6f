//! The tree, taken through its history once more.
ghost use Rattle.std.specs.Prelude.{◌≡◌, ◌+◌, ◌<◌, ◌≤◌, IfOk, length, ⊤};
ghost use Rattle.run_law.specs.Runs.{IsRun};
ghost use Rattle.run_replay.specs.Playbacks.{HasTaken, HasTakenBefore};
ghost use Rattle.script_ops.specs.Fits.{Fits};
ghost use Rattle.script_ops.specs.declared.limits.TheConstants.{MOST_WEIGHT};
ghost use Rattle.tree_law.specs.State.{tasks_of};
ghost use Rattle.tree_law.specs.Steps.{needs, next};

use crate::playback::Playback;
use crate::taken::take;
use rc_base::NoMemory;
use run_law::Journals;
use script_ops::{Op, Script};
use std::alloc::Global;
use std::marker::Model;
use tree_core::Tree;

/// The tree of a run, as it was before a command. Contracts see the tree.
#[derive(Drop)]
pub struct Replay {
    tree: Tree,
}

impl Model for Replay {
    ghost use Rattle.tree_core.specs.Values.{TreeValue};

    ghost Value = { TreeValue };

    ghost view = { λ r. r.tree };
}

impl Replay {
    /// The opening tree of a run.
    pub fn create(alloc: Global, script: &Script, journals: &Journals) -> Result<Replay, NoMemory>
        requires { IsRun script.now journals.now }
        ensures { IfOk result (HasTakenBefore script.now journals.now.tree 0) }
    {
        // A script is light, and so a run of it has few commands.
        let _threads = script.threads();
        let tree = Tree::create(alloc, script.machine(), script.tasks())?;
        Ok(Replay { tree })
    }

    /// The tree as it is now.
    pub fn tree(&self) -> &Tree
        ensures { result.now ≡ self.now }
    {
        &self.tree
    }

    /// Takes a command once more, with its counts.
    pub(crate) fn take(&mut self, op: &Op, looks: &[u64])
        requires fits { Fits self.old.machine (tasks_of self.old.state) op.now }
        requires looks { length looks.now ≡ length (needs self.old.machine self.old.state op.now) }
        requires epoch { self.old.epoch < MOST_WEIGHT }
        ensures machine { self.new.machine ≡ self.old.machine }
        ensures state { self.new.state ≡ (next self.old.machine self.old.state op.now looks.now).state }
        ensures epoch { self.new.epoch ≡ self.old.epoch + 1 }
    {
        self.tree.apply(op, looks);
    }

    /// Takes the command at a position once more, which is the next.
    pub fn take_next(&mut self, script: &Script, journals: &Journals, position: usize)
        requires taken { HasTaken script.now journals.now.tree self.old }
        requires next { self.old.epoch ≡ position }
        requires within { position < length journals.now.tree }
        ensures taken { HasTaken script.now journals.now.tree self.new }
        ensures epoch { self.new.epoch ≡ position + 1 }
    {
        let tree = journals.tree();
        let entry = &tree[position];
        take(self, script, entry);
    }

    /// Takes all commands before a position, from where the tree is.
    pub fn reach(&mut self, script: &Script, journals: &Journals, position: usize)
        requires taken { HasTakenBefore script.now journals.now.tree position self.old }
        requires within { position ≤ length journals.now.tree }
        ensures taken { HasTaken script.now journals.now.tree self.new }
        ensures epoch { self.new.epoch ≡ position }
    {
        let first = self.tree.epoch() as usize;
        for next in first..position {
            self.take_next(script, journals, next);
        }
    }
}

impl Playback for Replay {
    ghost played = { λ r. r };

    ghost notes = { λ script j r. ⊤ };

    fn tree(&self) -> &Tree {
        &self.tree
    }

    fn play_to(
        &mut self,
        script: &Script,
        journals: &Journals,
        position: usize,
    ) -> Result<(), NoMemory> {
        self.reach(script, journals, position);
        Ok(())
    }
}
