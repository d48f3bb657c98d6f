//! The commands that were taken.
ghost use Rattle.std.specs.Prelude.{◌≡◌, ◌<◌, Contains, IfOk, OnErr, OnOk, true};
ghost use Rattle.pair_law.specs.Bounds.{tasks_of};
ghost use Rattle.pair_text.specs.Values.{HasShortName, IsLawful, is_command};
ghost use Rattle.pair_play.specs.SoFar.{AreCommandsSoFar, taken};
ghost use Rattle.pair_text.specs.declared.limits.TheConstants.{MOST_COMMANDS};
ghost use Rattle.pair_tree.specs.Tags.{tag_of};

use pair_text::{PairOp, PairScript};
use pair_tree::{PairTag, PairTree};
use rc_base::{NoMemory, Reply};
use std::alloc::Global;
use std::marker::Model;

/// The tree of groups, and its replies to the commands that it took.
#[derive(Drop)]
pub struct Commands {
    tree: PairTree,
    replies: Vec<Reply>,
}

impl Model for Commands {
    ghost use Rattle.std.specs.Prelude.{◌≡◌, length};
    ghost use Rattle.pair_play.specs.SoFar.{CommandsValue};

    ghost Value = { CommandsValue };

    ghost view = { λ c. record { tree = c.tree; replies = c.replies.items } };

    ghost invariant = { λ c. length c.replies.items ≡ c.tree.epoch };
}

impl Commands {
    /// No command of the script was taken.
    pub fn create(alloc: Global, script: &PairScript) -> Result<Commands, NoMemory>
        requires { IsLawful script.now }
        ensures { IfOk result (AreCommandsSoFar script.now 0) }
    {
        let tree = PairTree::create(alloc, script)?;
        Ok(Commands {
            tree,
            replies: Vec::new(alloc),
        })
    }

    /// Takes a command, and keeps its reply.
    pub fn take(&mut self, op: &PairOp) -> Result<(), NoMemory>
        requires command { is_command op.now ≡ true }
        requires short { HasShortName op.now }
        requires epoch { self.old.tree.epoch < MOST_COMMANDS }
        ensures taken { OnOk result (self.new ≡ taken self.old op.now) }
        ensures err { OnErr result (self.new ≡ self.old) }
    {
        self.replies.reserve(1)?;
        let reply = self.tree.apply(op);
        self.replies.push_reserved(reply);
        Ok(())
    }

    /// How many commands were taken.
    pub fn epoch(&self) -> u64
        ensures { result ≡ self.now.tree.epoch }
    {
        self.replies.len() as u64
    }

    /// The tag of an access by a declared task on a CPU that exists.
    pub fn resolve(&self, task: u32, cpu: u8) -> PairTag
        requires task { Contains (tasks_of self.now.tree.state) task }
        requires cpu { cpu < self.now.tree.machines.machine.cpus }
        ensures { result ≡ tag_of self.now.tree.machines self.now.tree.state self.now.tree.epoch task cpu }
    {
        self.tree.resolve(task, cpu)
    }

    /// The replies alone.
    pub fn into_replies(self) -> Vec<Reply>
        ensures { result.items ≡ self.replies }
    {
        self.replies
    }
}
