//! Where a path stands in the tree, whether its groups exist or not.
ghost use Rattle.std.specs.Prelude.{◌≡◌, Some, MatchOption, false};
ghost use Rattle.path_names.specs.declared.dirs.DirRef.TheVariants.{MonDomain};
ghost use Rattle.path_names.specs.declared.files.FileKind.TheVariants.{Occupancy};
ghost use Rattle.path_names.specs.declared.path_ref.PathRef.TheVariants.{Dir, File};
ghost use Rattle.tree_law.specs.Existing.{holder_dir, holding, holds_groups, is_in_place, owner_dir};
ghost use Rattle.tree_core.specs.Places.{is_mode_file, is_occupancy, is_some_file};
ghost use Rattle.tree_law.specs.commands.Write.{is_written};

use path_names::{DirRef, FileKind, Holder, Owner, PathRef};

// The directory of a control group.
fn owner_dir(owner: Owner) -> DirRef
    ensures { result ≡ owner_dir owner }
{
    match owner {
        Owner::Default => DirRef::Root,
        Owner::Ctrl(name) => DirRef::Ctrl(name),
    }
}

// The directory of a group.
fn holder_dir(holder: Holder) -> DirRef
    ensures { result ≡ holder_dir holder }
{
    match holder {
        Holder::Control(owner) => owner_dir(owner),
        Holder::Monitor(owner, name) => DirRef::Mon(owner, name),
    }
}

/// The directory that would hold a path. The root holds itself, and nothing holds what stands below a file.
pub(crate) fn holding(path: PathRef) -> Option<DirRef>
    ensures { result ≡ holding path }
{
    match path {
        PathRef::Dir(dir) => Some(above(dir)),
        PathRef::File(dir, _) => Some(dir),
        PathRef::Free(dir, _) => Some(dir),
        PathRef::Nowhere(_) => None,
    }
}

// The directory that holds a directory.
fn above(dir: DirRef) -> DirRef
    ensures { Some result ≡ holding (Dir dir) }
{
    match dir {
        DirRef::Root | DirRef::Info | DirRef::Ctrl(_) => DirRef::Root,
        DirRef::InfoL3 | DirRef::InfoL3Mon => DirRef::Info,
        DirRef::MonGroups(owner) => owner_dir(owner),
        DirRef::Mon(owner, _) => DirRef::MonGroups(owner),
        DirRef::MonData(holder) => holder_dir(holder),
        DirRef::MonDomain(holder, _) => DirRef::MonData(holder),
    }
}

/// Whether groups are made in a directory.
pub(crate) fn holds_groups(dir: DirRef) -> bool
    ensures { result ≡ holds_groups dir }
{
    matches!(dir, DirRef::Root | DirRef::MonGroups(_))
}

/// Whether a path would stand in a directory in which groups are made.
pub(crate) fn is_in_place(path: PathRef) -> bool
    ensures { result ≡ is_in_place path }
{
    match holding(path) {
        Some(dir) => holds_groups(dir),
        None => false,
    }
}

/// Whether a file can be written.
pub(crate) fn is_written(kind: FileKind) -> bool
    ensures { result ≡ is_written kind }
{
    matches!(
        kind,
        FileKind::Cpus
            | FileKind::CpusList
            | FileKind::Tasks
            | FileKind::Schemata
            | FileKind::Mode
            | FileKind::MaxThreshold
    )
}

/// Whether a path is the file `mode` of some directory.
pub(crate) fn is_mode_file(path: PathRef) -> bool
    ensures { result ≡ is_mode_file path }
{
    matches!(path, PathRef::File(_, FileKind::Mode))
}

/// The directory and the kind of the file that a path is.
pub(crate) fn file_at(path: PathRef) -> Option<(DirRef, FileKind)>
    ensures { MatchOption result (is_some_file path ≡ false) (λ file. path ≡ File file.0 file.1) }
{
    match path {
        PathRef::File(dir, kind) => Some((dir, kind)),
        _ => None,
    }
}

/// The group and the domain whose file `llc_occupancy` a path is.
pub(crate) fn counted_at(path: PathRef) -> Option<(Holder, u8)>
    ensures { MatchOption result (is_occupancy path ≡ false) (λ of. path ≡ File (MonDomain of.0 of.1) Occupancy) }
{
    match path {
        PathRef::File(DirRef::MonDomain(holder, domain), FileKind::Occupancy) => Some((
            holder, domain,
        )),
        _ => None,
    }
}
