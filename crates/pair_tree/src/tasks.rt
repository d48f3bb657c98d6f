//! A write of `tasks`: tasks join a group.
ghost use Rattle.std.specs.Prelude.{◌≡◌, ◌<◌, length};
ghost use Rattle.pair_law.specs.commands.Tasks.{kept, refusal};
ghost use Rattle.pair_tree.specs.Changes.{MakesUnless};
ghost use Rattle.pair_tree.specs.Places.{At};
ghost use Rattle.pair_tree.specs.Tables.{state_of};

use crate::tables::Tables;
use command_parts::move_tasks;
use group_tree::GroupKind;
use rc_base::Reply;

impl Tables {
    /// Moves the tasks of a text to the group at a place, up to the first that cannot.
    pub(crate) fn write_tasks(&mut self, place: usize, text: &[u8]) -> Reply
        requires within { place < length self.old.groups.items }
        ensures { At self.old.groups.items place (λ g.
            MakesUnless (kept (state_of self.old) g text.now) (refusal (state_of self.old) g text.now)
            (kept (state_of self.old) g text.now) (state_of self.new) result) }
    {
        let gid = self.groups[place].gid;
        move_tasks(&mut self.tasks, gid, GroupKind::Control, text)
    }
}
