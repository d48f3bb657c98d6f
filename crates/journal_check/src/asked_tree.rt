//! A tree that is asked for the tags of accesses.
ghost use Rattle.std.specs.Prelude.{◌≡◌, ◌+◌, ◌<◌, Contains, length};
ghost use Rattle.journal_check.specs.Tags.{IsTagFor};
ghost use Rattle.script_ops.specs.Fits.{Fits};
ghost use Rattle.script_ops.specs.declared.limits.TheConstants.{MOST_WEIGHT};
ghost use Rattle.tree_law.specs.State.{tasks_of};
ghost use Rattle.tree_law.specs.Steps.{needs, next};

use rc_base::Tag;
use script_ops::Op;
use std::marker::Model;
use tree_core::Tree;

/// The tag that the tree gives the accesses of a task on a CPU.
#[derive(Clone, Copy)]
pub(crate) struct CachedTag {
    task: u32,
    cpu: u8,
    tag: Tag,
}

/// A tree on its way through a history, with the tag that it was asked for last. Contracts see the tree.
#[derive(Drop)]
pub(crate) struct AskedTree {
    tree: Tree,
    cached: Option<CachedTag>,
}

impl Model for AskedTree {
    ghost use Rattle.std.specs.Prelude.{IfSome};
    ghost use Rattle.journal_check.specs.Tags.{IsTagFor};
    ghost use Rattle.tree_core.specs.Values.{TreeValue};

    ghost Value = { TreeValue };

    ghost view = { λ a. a.tree };

    ghost invariant = { λ a. IfSome a.cached (λ k. IsTagFor a.tree.machine a.tree.state k.task k.cpu k.tag) };
}

impl AskedTree {
    /// This tree, which was not asked yet.
    pub(crate) fn create(tree: Tree) -> AskedTree
        ensures { result ≡ tree }
    {
        AskedTree { tree, cached: None }
    }

    /// Takes a command of a legal history once more. Its tags may be others from then on.
    pub(crate) fn apply(&mut self, op: &Op, looks: &[u64])
        requires fits { Fits self.old.machine (tasks_of self.old.state) op.now }
        requires looks { length looks.now ≡ length (needs self.old.machine self.old.state op.now) }
        requires epoch { self.old.epoch < MOST_WEIGHT }
        ensures machine { self.new.machine ≡ self.old.machine }
        ensures state { self.new.state ≡ (next self.old.machine self.old.state op.now looks.now).state }
        ensures epoch { self.new.epoch ≡ self.old.epoch + 1 }
    {
        self.cached = None;
        let _ = self.tree.apply(op, looks);
    }

    /// The tag of an access by a declared task on a CPU. That of the last one's task and CPU is not found again.
    pub(crate) fn tag(&mut self, task: u32, cpu: u8) -> Tag
        requires task { Contains (tasks_of self.old.state) task }
        requires cpu { cpu < self.old.machine.cpus }
        ensures same { self.new ≡ self.old }
        ensures tag { IsTagFor self.old.machine self.old.state task cpu result }
    {
        match self.cached {
            Some(
                CachedTag {
                    task: of,
                    cpu: on,
                    tag,
                },
            ) if of == task && on == cpu => tag,
            _ => {
                let tag = self.tree.resolve(task, cpu);
                self.cached = Some(CachedTag { task, cpu, tag });
                tag
            }
        }
    }
}
