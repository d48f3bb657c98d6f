//! Groups that tasks, CPUs and monitor groups join.
ghost use Rattle.std.specs.Prelude.{◌≡◌};
ghost use Rattle.tree_law.specs.Counted.{is_counted};
ghost use Rattle.tree_law.specs.Existing.{directory_gid};
ghost use Rattle.tree_law.specs.Places.{controlling, group_at, is_closed};

use super::Tree;
use crate::found_dir::FoundDir;
use group_tree::{Group, GroupKind};
use path_names::DirRef;
use rc_base::{Gid, Mode};

impl Tree {
    /// The group of a directory.
    pub(crate) fn group_at(&self, dir: DirRef) -> Option<Group>
        ensures { result ≡ group_at self.now.state dir }
    {
        let gid = self.directory_gid(dir);
        self.group_in(FoundDir { dir, gid })
    }

    /// The group of a directory that was found.
    pub(crate) fn group_in(&self, at: FoundDir) -> Option<Group>
        requires found { at.gid ≡ directory_gid self.now.state at.dir }
        ensures { result ≡ group_at self.now.state at.dir }
    {
        let group = self.groups.get(at.gid?)?;
        Some(*group)
    }

    /// Whether the control group that a group belongs to is in pseudo-locksetup or pseudo-locked.
    pub(crate) fn is_closed(&self, group: &Group) -> bool
        ensures { result ≡ is_closed self.now.state (controlling group.now.gid group.now.kind) }
    {
        self.is_closed_control(controlling(group))
    }

    /// Whether a control group is in pseudo-locksetup or pseudo-locked.
    pub(crate) fn is_closed_control(&self, control: Gid) -> bool
        ensures { result ≡ is_closed self.now.state control }
    {
        match self.groups.get(control) {
            Some(group) => !is_counted(group),
            None => false,
        }
    }
}

// The control group that a group belongs to.
fn controlling(group: &Group) -> Gid
    ensures { result ≡ controlling group.now.gid group.now.kind }
{
    match group.kind {
        GroupKind::Control => group.gid,
        GroupKind::Monitor { parent } => parent,
    }
}

// Whether a group is a shareable or exclusive control group.
fn is_counted(group: &Group) -> bool
    ensures { result ≡ is_counted group.now }
{
    match group.kind {
        GroupKind::Control => matches!(group.mode, Mode::Shareable | Mode::Exclusive),
        GroupKind::Monitor { .. } => false,
    }
}
