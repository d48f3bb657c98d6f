//! Which paths exist, and whose group a directory is.
ghost use Rattle.std.specs.Prelude.{◌≡◌};
ghost use Rattle.tree_core.specs.FoundFiles.{FindsDir};
ghost use Rattle.tree_law.specs.Existing.{dir_exists, directory_gid, holder_gid, is_directory, is_file, is_held, owner_gid, path_exists};

use super::Tree;
use crate::found_dir::FoundDir;
use crate::places::holding;
use path_names::{DirRef, Holder, Owner, PathRef};
use rc_base::Gid;

impl Tree {
    /// The control group of an owner, and None where there is no such group.
    pub fn owner_gid(&self, owner: Owner) -> Option<Gid>
        ensures { result ≡ owner_gid self.now.state owner }
    {
        match owner {
            Owner::Default => Some(Gid::DEFAULT),
            Owner::Ctrl(name) => self.groups.find_ctrl(name),
        }
    }

    /// The group that a `Holder` names, and None where there is no such group.
    pub fn holder_gid(&self, holder: Holder) -> Option<Gid>
        ensures { result ≡ holder_gid self.now.state holder }
    {
        match holder {
            Holder::Control(owner) => self.owner_gid(owner),
            Holder::Monitor(owner, name) => match self.owner_gid(owner) {
                Some(parent) => self.groups.find_mon(parent, name),
                None => None,
            },
        }
    }

    /// The group whose directory this is, and None where there is no such group, or the directory is no group's.
    pub fn directory_gid(&self, dir: DirRef) -> Option<Gid>
        ensures { result ≡ directory_gid self.now.state dir }
    {
        match dir {
            DirRef::Root => Some(Gid::DEFAULT),
            DirRef::Ctrl(name) => self.owner_gid(Owner::Ctrl(name)),
            DirRef::Mon(owner, name) => self.holder_gid(Holder::Monitor(owner, name)),
            _ => None,
        }
    }

    // Whether a directory exists.
    fn dir_exists(&self, dir: DirRef) -> bool
        ensures { result ≡ dir_exists self.now.state dir }
    {
        match dir {
            DirRef::Root | DirRef::Info | DirRef::InfoL3 | DirRef::InfoL3Mon => true,
            DirRef::Ctrl(name) => self.owner_gid(Owner::Ctrl(name)).is_some(),
            DirRef::MonGroups(owner) => self.owner_gid(owner).is_some(),
            DirRef::Mon(owner, name) => self.holder_gid(Holder::Monitor(owner, name)).is_some(),
            DirRef::MonData(holder) => self.holder_gid(holder).is_some(),
            DirRef::MonDomain(holder, _) => self.holder_gid(holder).is_some(),
        }
    }

    /// A directory with its group, and None where there is no such directory.
    pub(crate) fn found_dir(&self, dir: DirRef) -> Option<FoundDir>
        ensures { FindsDir self.now.state dir result }
    {
        let gid = self.directory_gid(dir);
        if gid.is_some() || self.dir_exists(dir) {
            Some(FoundDir { dir, gid })
        } else {
            None
        }
    }

    /// Whether a path is an existing file.
    pub fn is_file(&self, path: PathRef) -> bool
        ensures { result ≡ is_file self.now.state path }
    {
        match path {
            PathRef::File(dir, _) => self.dir_exists(dir),
            _ => false,
        }
    }

    /// Whether a path is an existing directory.
    pub fn is_directory(&self, path: PathRef) -> bool
        ensures { result ≡ is_directory self.now.state path }
    {
        match path {
            PathRef::Dir(dir) => self.dir_exists(dir),
            _ => false,
        }
    }

    /// Whether a path is an existing file or directory.
    pub(crate) fn path_exists(&self, path: PathRef) -> bool
        ensures { result ≡ path_exists self.now.state path }
    {
        match path {
            PathRef::Dir(dir) | PathRef::File(dir, _) => self.dir_exists(dir),
            _ => false,
        }
    }

    /// Whether the directory that would hold a path exists.
    pub(crate) fn is_held(&self, path: PathRef) -> bool
        ensures { result ≡ is_held self.now.state path }
    {
        match holding(path) {
            Some(dir) => self.dir_exists(dir),
            None => false,
        }
    }
}
