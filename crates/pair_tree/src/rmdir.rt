//! rmdir: removing a group.
ghost use Rattle.std.specs.Prelude.{◌≡◌, ◌<◌, length, not, filter};
ghost use Rattle.pair_law.specs.Sound.{IsSound};
ghost use Rattle.pair_law.specs.State.{has_gid};
ghost use Rattle.pair_law.specs.commands.Rmdir as rmdir;
ghost use Rattle.pair_law.specs.commands.Rmdir.{without, without_group};
ghost use Rattle.pair_tree.specs.Changes.{MakesUnless};
ghost use Rattle.pair_tree.specs.Tables.{state_of};

use crate::lookup::place_named;
use crate::tables::Tables;
use rc_base::{Gid, Reply, Why};

impl Tables {
    // Removes the group with this serial number. Its tasks go to the default group.
    fn remove(&mut self, gid: Gid)
        ensures { state_of self.new ≡ without_group (state_of self.old) gid }
    {
        self.groups.retain(|g| gid.0 != g.gid.0);
        self.tasks.unbind_ctrl(gid);
    }

    /// Removes the group of this name, where there is one.
    pub(crate) fn rmdir(&mut self, name: &[u8]) -> Reply
        ensures { MakesUnless (state_of self.old) (rmdir.refusal (state_of self.old) name.now)
            (rmdir.accepted (state_of self.old) name.now) (state_of self.new) result }
    {
        match place_named(&self.groups, name) {
            Some(place) => {
                let gid = self.groups[place].gid;
                self.remove(gid);
                Reply::Ok
            }
            None => Reply::refused(Why::NoSuchPath, 0),
        }
    }
}
