//! rmdir: removing a group.
ghost use Rattle.std.specs.Prelude.{◌≡◌, None, length, []};
ghost use Rattle.path_names.specs.declared.dirs.DirRef.TheVariants.{Ctrl, Mon};
ghost use Rattle.path_names.specs.declared.path_ref.PathRef.TheVariants.{Dir};
ghost use Rattle.script_ops.specs.declared.op.Op.TheVariants.{Rmdir};
ghost use Rattle.tree_core.specs.Changes.{Takes};
ghost use Rattle.tree_core.specs.Found.{IsControl, IsGroup, IsMonitor, found_path};
ghost use Rattle.tree_core.specs.Removals.{MayLeave};
ghost use Rattle.tree_law.specs.Steps.{accepted, needs, refusal};

use super::Tree;
use crate::classes::give;
use crate::control::Control;
use crate::follow::{After, raise_all};
use crate::found_group::FoundGroup;
use crate::freeing::free_all;
use crate::monitor::Monitor;
use crate::removal::remove_monitors;
use crate::rmid_list::RmidList;
use path_names::PathRef;
use rc_base::Reply;

impl Tree {
    /// Removes the group at this path, with the counts of its RMIDs.
    pub(crate) fn rmdir(&mut self, path: PathRef, looks: &[u64], follows: &mut After) -> Reply
        requires looks { length looks.now ≡ length (needs self.old.machine self.old.state (Rmdir path)) }
        requires nothing { follows.old.items ≡ [] }
        ensures { Takes self.old (Rmdir path) looks.now self.new result follows.new.items }
    {
        match self.found_at(path) {
            Ok(found) => self.remove(found, looks, follows),
            Err(why) => Reply::refused(why, 0),
        }
    }

    // Removes a group that was found.
    fn remove(&mut self, found: FoundGroup, looks: &[u64], follows: &mut After) -> Reply
        requires found { IsGroup self.old.state found }
        requires accepted { refusal self.old.machine self.old.state (Rmdir (found_path found)) ≡ None }
        requires looks { length looks.now ≡ length (needs self.old.machine self.old.state (Rmdir (found_path found))) }
        requires nothing { follows.old.items ≡ [] }
        ensures { Takes self.old (Rmdir (found_path found)) looks.now self.new result follows.new.items }
    {
        raise_all(follows, self.machine.domains);
        self.remove_group(found, looks);
        Reply::Ok
    }

    // Removes a group from the tree, and frees the RMIDs that go with it.
    fn remove_group(&mut self, found: FoundGroup, looks: &[u64])
        requires found { IsGroup self.old.state found }
        requires accepted { refusal self.old.machine self.old.state (Rmdir (found_path found)) ≡ None }
        requires looks { length looks.now ≡ length (needs self.old.machine self.old.state (Rmdir (found_path found))) }
        ensures tree { self.new ≡ record self.old {
          state = accepted self.old.machine self.old.state (Rmdir (found_path found)) looks.now;
        } }
    {
        let mut freed = RmidList::new();
        self.push_freed(found, &mut freed);
        match found {
            FoundGroup::Control(group) => self.remove_control(group, freed.as_slice(), looks),
            FoundGroup::Monitor(group) => self.remove_monitor(group, freed.as_slice(), looks),
        }
    }

    // Removes a control group with its monitor groups and its region. Its tasks and CPUs go to the default group.
    fn remove_control(&mut self, found: Control, freed: &[u16], looks: &[u64])
        requires found { IsControl self.old.state found }
        requires leaves { MayLeave self.old (Dir (Ctrl found.name)) freed.now looks.now }
        ensures tree { self.new ≡ record self.old {
          state = accepted self.old.machine self.old.state (Rmdir (Dir (Ctrl found.name))) looks.now;
        } }
    {
        remove_monitors(&mut self.groups, found.gid);
        self.groups.remove(found.gid);
        give(&mut self.classes, found.class);
        self.regions.remove(found.gid);
        self.tasks.unbind_ctrl(found.gid);
        self.cpus.remove_ctrl(found.gid);
        free_all(&self.machine, &mut self.rmids, freed, looks);
    }

    // Removes a monitor group. Its tasks and CPUs count at its parent.
    fn remove_monitor(&mut self, found: Monitor, freed: &[u16], looks: &[u64])
        requires found { IsMonitor self.old.state found }
        requires leaves { MayLeave self.old (Dir (Mon found.owner found.name)) freed.now looks.now }
        ensures tree { self.new ≡ record self.old {
          state = accepted self.old.machine self.old.state (Rmdir (Dir (Mon found.owner found.name))) looks.now;
        } }
    {
        self.groups.remove(found.gid);
        self.tasks.unbind_mon(found.gid, found.parent);
        self.cpus.remove_mon(found.gid, found.parent);
        free_all(&self.machine, &mut self.rmids, freed, looks);
    }
}
