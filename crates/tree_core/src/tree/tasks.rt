//! A write of `tasks`: tasks join a group.
ghost use Rattle.std.specs.Prelude.{◌≡◌, [], ◌≤◌, ℕ, List, None, find, length};
ghost use Rattle.path_names.specs.declared.files.FileKind.TheVariants.{Tasks};
ghost use Rattle.path_names.specs.declared.path_ref.PathRef.TheVariants.{File};
ghost use Rattle.script_ops.specs.declared.op.Op.TheVariants.{Write};
ghost use Rattle.tree_core.specs.Changes.{Takes};
ghost use Rattle.tree_law.specs.Existing.{directory_gid};
ghost use Rattle.tree_law.specs.Refusals.{reply_of};
ghost use Rattle.tree_law.specs.Sound.{IsSound};
ghost use Rattle.tree_law.specs.commands.Tasks.{kept, moves_in, refusal};
ghost use Rattle.tree_law.specs.commands.Write.{against, reasons};

use super::Tree;
use crate::found_dir::FoundDir;
use command_parts::move_tasks;
use group_tree::Group;
use rc_base::{Reply, Why};

impl Tree {
    /// Writes the `tasks` of a directory. The tasks before the first bad element have moved, also where the write is refused.
    pub(crate) fn write_tasks(&mut self, at: FoundDir, text: &[u8]) -> Reply
        requires writable { find (against self.old.state (File at.dir Tasks)) reasons ≡ None }
        requires found { at.gid ≡ directory_gid self.old.state at.dir }
        requires short { length text.now ≤ 4096 }
        ensures { (looks : List ℕ) → Takes self.old (Write (File at.dir Tasks) text.now) looks self.new result [] }
    {
        // What the type keeps makes the next state a sound one.
        let _ = &self.machine;
        let Some(group) = self.group_in(at) else {
            return self.answer(Reply::Ok);
        };
        let reply = self.join_tasks(&group, text);
        self.answer(reply)
    }

    // Moves the tasks of a text to a group, up to the first that cannot.
    fn join_tasks(&mut self, group: &Group, text: &[u8]) -> Reply
        requires sound { IsSound self.old.machine (kept self.old.state group.now text.now) }
        ensures reply { result ≡ reply_of (refusal self.old.state group.now text.now) }
        ensures tree { self.new ≡ record self.old { state = kept self.old.state group.now text.now } }
    {
        if self.is_closed(group) {
            return Reply::refused(Why::Locking, 0);
        }
        self.take_tasks(group, text)
    }

    // Moves the tasks of a text to a group that is not closed.
    fn take_tasks(&mut self, group: &Group, text: &[u8]) -> Reply
        requires sound { IsSound self.old.machine
            (record self.old.state { tasks = (moves_in self.old.state group.now text.now).tasks }) }
        ensures reply { result ≡ reply_of (moves_in self.old.state group.now text.now).ended }
        ensures tree { self.new ≡ record self.old {
          state = record self.old.state { tasks = (moves_in self.old.state group.now text.now).tasks };
        } }
    {
        move_tasks(&mut self.tasks, group.gid, group.kind, text)
    }
}
