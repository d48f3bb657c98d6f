//! mkdir: making a group.
ghost use Rattle.std.specs.Prelude.{◌≡◌, ◌≤◌, ◌<◌, ◌^◌, ◌-◌, ℕ, List, None, false, find, []};
ghost use Rattle.script_ops.specs.declared.op.Op.TheVariants.{Mkdir};
ghost use Rattle.tree_core.specs.Changes.{MakesGroup, Takes};
ghost use Rattle.tree_core.specs.Directories.{path_of};
ghost use Rattle.tree_core.specs.Places.{place_reasons};
ghost use Rattle.tree_law.specs.Existing.{is_group_directory};
ghost use Rattle.tree_law.specs.Steps.{refusal};
ghost use Rattle.tree_law.specs.commands.Mkdir.{accepted, against};

use super::Tree;
use crate::group_dir::{GroupDir, group_dir};
use crate::places::is_in_place;
use crate::taking::take_rmid;
use path_names::PathRef;
use rc_base::{Reply, Why};

impl Tree {
    /// Makes a group at this path, and sets the last status.
    pub(crate) fn mkdir(&mut self, path: PathRef) -> Reply
        requires gids { self.old.state.next_gid ≤ self.old.epoch }
        requires epoch { self.old.epoch < 2 ^ 32 - 1 }
        ensures { (looks : List ℕ) → Takes self.old (Mkdir path) looks self.new result [] }
    {
        let reply = self.make(path);
        self.answer(reply)
    }

    // Makes a group at this path, but for the last status.
    fn make(&mut self, path: PathRef) -> Reply
        requires gids { self.old.state.next_gid ≤ self.old.epoch }
        requires epoch { self.old.epoch < 2 ^ 32 - 1 }
        ensures { MakesGroup self.old path self.new result }
    {
        match self.against_place(path) {
            Some(why) => Reply::refused(why, 0),
            None => match group_dir(path) {
                Some(dir) => self.make_group(dir),
                None => self.make_nothing(path),
            },
        }
    }

    // Makes no group: a path where groups go that cannot be a group's directory. No script reads to one.
    fn make_nothing(&mut self, path: PathRef) -> Reply
        requires place { find (against self.old.machine self.old.state path) place_reasons ≡ None }
        requires nameless { is_group_directory path ≡ false }
        ensures { MakesGroup self.old path self.new result }
    {
        match take_rmid(&mut self.rmids) {
            Ok(rmid) => {
                self.rmids.free(rmid, 0);
                Reply::Ok
            }
            Err(reply) => reply,
        }
    }

    // Makes a group with this directory, where nothing is against its place.
    fn make_group(&mut self, dir: GroupDir) -> Reply
        requires place { find (against self.old.machine self.old.state (path_of dir)) place_reasons ≡ None }
        requires gids { self.old.state.next_gid ≤ self.old.epoch }
        requires epoch { self.old.epoch < 2 ^ 32 - 1 }
        ensures { MakesGroup self.old (path_of dir) self.new result }
    {
        match dir {
            GroupDir::Control(name) => self.make_control(name),
            GroupDir::Monitor(owner, name) => self.make_monitor(owner, name),
        }
    }

    // What is against making a group at this place.
    fn against_place(&self, path: PathRef) -> Option<Why>
        ensures { result ≡ find (against self.now.machine self.now.state path) place_reasons }
    {
        if !self.is_held(path) {
            Some(Why::NoSuchPath)
        } else if self.path_exists(path) {
            Some(Why::Exists)
        } else if !is_in_place(path) {
            Some(Why::NotAPlace)
        } else {
            None
        }
    }
}
