//! Lines that write to the files of groups.
ghost use Rattle.std.specs.Prelude.{◌≡◌, ◌++◌, OnOk};
ghost use Rattle.std.specs.List.{flat_map};
ghost use Rattle.way_plans.specs.PlanTexts.{dir_of, exclusive_line, is_exclusive, shareable_line, write_line};
ghost use Rattle.tree_core.specs.Named.{AreNamed, IsNamed};

use group_tree::Group;
use num_text::GrowingText;
use path_names::{DirRef, FileKind, Names, PathRef, push_path};
use rc_base::{Mode, NoMemory};
use script_ops::push_written;

/// The directory of a control group.
pub(crate) fn dir_of(group: &Group) -> DirRef
    ensures { result ≡ dir_of group.now }
{
    match group.name {
        Some(name) => DirRef::Ctrl(name),
        None => DirRef::Root,
    }
}

/// Adds the line that writes a text to a file of a group.
pub(crate) fn push_write(
    text: &mut GrowingText,
    names: &Names,
    group: &Group,
    file: FileKind,
    written: &[u8],
) -> Result<(), NoMemory>
    requires { IsNamed names.now group.now }
    ensures { OnOk result (text.new ≡ text.old ++ write_line names.now group.now file written.now) }
{
    let path = PathRef::File(dir_of(group), file);
    text.push(b"write ")?;
    push_path(text, names, path)?;
    push_written(text, written)?;
    text.push(b"\n")
}

// Whether a mode is exclusive.
fn is_exclusive(mode: Mode) -> bool
    ensures { result ≡ is_exclusive mode }
{
    matches!(mode, Mode::Exclusive)
}

// Adds the line that makes a group shareable, where it is exclusive.
fn push_shareable(text: &mut GrowingText, names: &Names, group: &Group) -> Result<(), NoMemory>
    requires { IsNamed names.now group.now }
    ensures { OnOk result (text.new ≡ text.old ++ shareable_line names.now group.now) }
{
    if !is_exclusive(group.mode) {
        return Ok(());
    }
    push_write(text, names, group, FileKind::Mode, b"shareable")
}

/// Adds the lines that make the exclusive ones of some groups shareable.
pub(crate) fn push_all_shareable(
    text: &mut GrowingText,
    names: &Names,
    groups: &[Group],
) -> Result<(), NoMemory>
    requires { AreNamed names.now groups.now }
    ensures { OnOk result (text.new ≡ text.old ++ flat_map (shareable_line names.now) groups.now) }
{
    for group in groups {
        push_shareable(text, names, group)?;
    }
    Ok(())
}

/// Adds the lines that make groups exclusive.
pub(crate) fn push_all_exclusive(
    text: &mut GrowingText,
    names: &Names,
    groups: &[Group],
) -> Result<(), NoMemory>
    requires { AreNamed names.now groups.now }
    ensures { OnOk result (text.new ≡ text.old ++ flat_map (exclusive_line names.now) groups.now) }
{
    for group in groups {
        push_write(text, names, group, FileKind::Mode, b"exclusive")?;
    }
    Ok(())
}
