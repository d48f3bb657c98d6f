//! The groups that may be removed, each by its path.
ghost use Rattle.std.specs.Prelude.{◌≡◌, Some, false, find};
ghost use Rattle.tree_core.specs.Directories.{path_of};
ghost use Rattle.tree_core.specs.Found.{FindsControl, FindsGroup, FindsMonitor};
ghost use Rattle.tree_law.specs.Existing.{is_group_directory};
ghost use Rattle.tree_law.specs.commands.Rmdir.{against, reasons};

use super::Tree;
use crate::control::Control;
use crate::found_group::FoundGroup;
use crate::group_dir::{GroupDir, group_dir};
use crate::monitor::Monitor;
use path_names::{NameId, Owner, PathRef};
use rc_base::Why;

impl Tree {
    /// The group that may be removed at this path, and where there is none, the reason against it.
    pub(crate) fn found_at(&self, path: PathRef) -> Result<FoundGroup, Why>
        ensures { FindsGroup self.now.state path result }
    {
        match group_dir(path) {
            Some(dir) => self.found_in(dir),
            None => Err(self.against_other(path)),
        }
    }

    // The group of a directory.
    fn found_in(&self, dir: GroupDir) -> Result<FoundGroup, Why>
        ensures { FindsGroup self.now.state (path_of dir) result }
    {
        match dir {
            GroupDir::Control(name) => match self.control(name) {
                Some(found) => Ok(FoundGroup::Control(found)),
                None => Err(Why::NoSuchPath),
            },
            GroupDir::Monitor(owner, name) => match self.monitor(owner, name) {
                Some(found) => Ok(FoundGroup::Monitor(found)),
                None => Err(Why::NoSuchPath),
            },
        }
    }

    // The reason against removing anything but a group's directory.
    fn against_other(&self, path: PathRef) -> Why
        requires other { is_group_directory path ≡ false }
        ensures { find (against self.now.state path) reasons ≡ Some result }
    {
        if self.path_exists(path) {
            Why::NotAPlace
        } else {
            Why::NoSuchPath
        }
    }

    // The control group of this name.
    fn control(&self, name: NameId) -> Option<Control>
        ensures { FindsControl self.now.state name result }
    {
        let Some(gid) = self.groups.find_ctrl(name) else {
            return None;
        };
        let group = self.groups.get(gid).unwrap();
        Some(Control {
            name,
            gid,
            class: group.class,
        })
    }

    // The monitor group of this name among those of an owner.
    fn monitor(&self, owner: Owner, name: NameId) -> Option<Monitor>
        ensures { FindsMonitor self.now.state owner name result }
    {
        let Some(parent) = self.owner_gid(owner) else {
            return None;
        };
        let Some(gid) = self.groups.find_mon(parent, name) else {
            return None;
        };
        Some(Monitor {
            owner,
            name,
            parent,
            gid,
        })
    }
}
