//! The RMIDs of groups, and those in limbo.
ghost use Rattle.std.specs.Prelude.{◌≡◌, [], None, Some, find};
ghost use Rattle.std.specs.Option.{option_map_or, option_to_list};
ghost use Rattle.path_names.specs.declared.files.FileKind.TheVariants as files;
ghost use Rattle.path_names.specs.declared.path_ref.PathRef.TheVariants.{File};
ghost use Rattle.script_ops.specs.declared.op.Op.TheVariants.{Rmdir, Write};
ghost use Rattle.tree_core.specs.Found.{IsGroup, found_path};
ghost use Rattle.tree_law.specs.Existing.{directory_gid, group_of, holder_gid};
ghost use Rattle.tree_law.specs.Freeing.{counts_of, rmids_of, rmids_with};
ghost use Rattle.tree_law.specs.Steps.{needs};
ghost use Rattle.tree_law.specs.commands.Mode.{freed_by};
ghost use Rattle.tree_law.specs.commands.Rmdir as rmdir;
ghost use Rattle.tree_law.specs.commands.Write as write;

use super::Tree;
use crate::found_dir::FoundDir;
use crate::found_group::FoundGroup;
use crate::rmid_list::{RmidList, push_monitors, push_some};
use group_tree::Group;
use path_names::{FileKind, Holder, PathRef};
use rc_base::{Gid, Mode};

impl Tree {
    /// Lists the RMIDs that removing the group at this path frees, and none where that is refused.
    pub(crate) fn push_freed_at(&self, path: PathRef, rmids: &mut RmidList)
        requires { rmids.old.items ≡ [] }
        ensures { needs self.now.machine self.now.state (Rmdir path) ≡ counts_of self.now.machine rmids.new.items }
    {
        match self.found_at(path) {
            Ok(found) => self.push_freed(found, rmids),
            Err(_) => {}
        }
    }

    /// The RMID that writing a text frees, and none where the write is refused: that of a group that enters
    /// pseudo-locksetup.
    pub(crate) fn freed_by_write(&self, path: PathRef, text: &[u8]) -> Option<u16>
        ensures { needs self.now.machine self.now.state (Write path text.now)
            ≡ counts_of self.now.machine (option_to_list result) }
    {
        match self.writable_at(path) {
            Ok((at, kind)) => self.freed_by_file(at, kind, text),
            Err(_) => None,
        }
    }

    // The RMID that writing a text to this file frees. The file can be written.
    fn freed_by_file(&self, at: FoundDir, kind: FileKind, text: &[u8]) -> Option<u16>
        requires writable { find (write.against self.now.state (File at.dir kind)) write.reasons ≡ None }
        requires found { at.gid ≡ directory_gid self.now.state at.dir }
        ensures { needs self.now.machine self.now.state (Write (File at.dir kind) text.now)
            ≡ counts_of self.now.machine (option_to_list result) }
    {
        match kind {
            FileKind::Mode => self.freed_by_mode(at, text),
            _ => None,
        }
    }

    // The RMID that writing a text to the `mode` of a directory frees. The directory has that file.
    fn freed_by_mode(&self, at: FoundDir, text: &[u8]) -> Option<u16>
        requires writable { find (write.against self.now.state (File at.dir files.Mode)) write.reasons ≡ None }
        requires found { at.gid ≡ directory_gid self.now.state at.dir }
        ensures { needs self.now.machine self.now.state (Write (File at.dir files.Mode) text.now)
            ≡ counts_of self.now.machine (option_to_list result) }
    {
        let Some(group) = self.control_in(at) else {
            return None;
        };
        match self.asked_mode(&group, text) {
            Ok(Some(mode)) => freed_by(&group, mode),
            Ok(None) => None,
            Err(_) => None,
        }
    }

    /// Lists the RMIDs that go with a group: its own, and where it is a control group, those of its monitor groups.
    pub(crate) fn push_freed(&self, found: FoundGroup, rmids: &mut RmidList)
        requires found { IsGroup self.now.state found }
        requires nothing { rmids.old.items ≡ [] }
        ensures { rmids.new.items ≡ rmdir.freed self.now.state (found_path found) }
    {
        match found {
            FoundGroup::Control(group) => self.push_with(group.gid, rmids),
            FoundGroup::Monitor(group) => self.push_own(group.gid, rmids),
        }
    }

    /// Lists the RMIDs of the group that a `Holder` names, and of its monitor groups.
    pub(crate) fn push_held(&self, holder: Holder, rmids: &mut RmidList)
        requires { rmids.old.items ≡ [] }
        ensures { rmids.new.items ≡ option_map_or (rmids_with self.now.state) (holder_gid self.now.state holder) [] }
    {
        match self.holder_gid(holder) {
            Some(gid) => self.push_with(gid, rmids),
            None => {}
        }
    }

    // Lists the RMID of a group, and then those of its monitor groups, in order of creation.
    fn push_with(&self, gid: Gid, rmids: &mut RmidList)
        requires { rmids.old.items ≡ [] }
        ensures { rmids.new.items ≡ rmids_with self.now.state gid }
    {
        self.push_own(gid, rmids);
        push_monitors(rmids, &self.groups, gid);
    }

    // Lists the RMID of a group, where it has one.
    fn push_own(&self, gid: Gid, rmids: &mut RmidList)
        requires { rmids.old.items ≡ [] }
        ensures { rmids.new.items ≡ option_map_or rmids_of (group_of self.now.state gid) [] }
    {
        match self.groups.get(gid) {
            Some(group) => push_some(rmids, group.rmid),
            None => {}
        }
    }

    /// Lists the RMIDs in limbo, rising.
    pub(crate) fn push_limbo(&self, rmids: &mut RmidList)
        requires { rmids.old.items ≡ [] }
        ensures { rmids.new.items ≡ self.now.state.limbo }
    {
        for i in 0..self.rmids.limbo_len() {
            rmids.push(self.rmids.limbo_at(i));
        }
    }
}

// The RMID that a group gives up where it turns to another mode.
fn freed_by(group: &Group, mode: Mode) -> Option<u16>
    ensures { option_to_list result ≡ freed_by group.now (Some mode) }
{
    match mode {
        Mode::LockSetup => group.rmid,
        Mode::Shareable | Mode::Exclusive | Mode::Locked => None,
    }
}
