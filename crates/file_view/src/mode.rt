//! The file `mode` of a group.
ghost use Rattle.std.specs.Prelude.{◌≡◌, ◌+◌, ◌≤◌, ◌++◌, length};
ghost use Rattle.file_view.specs.GroupFiles.{mode_text};
ghost use Rattle.file_view.specs.Lines.{on_line};
ghost use Rattle.file_view.specs.Texts.{of_group};
ghost use Rattle.tree_law.specs.commands.Mode.{mode_name as name_of};

use crate::find::find_group;
use command_parts::mode_name;
use path_names::DirRef;
use rc_base::{Mode, TextBuf};
use tree_core::Tree;

// Adds the name of a mode, on its line.
fn push_mode_name(mode: Mode, out: &mut TextBuf)
    requires room { 32 ≤ out.old.spare }
    ensures bytes { out.new.bytes ≡ out.old.bytes ++ on_line (name_of mode) }
    ensures spare { out.new.spare + length (on_line (name_of mode)) ≡ out.old.spare }
{
    out.push_all(mode_name(mode).as_bytes());
    out.push(b'\n');
}

/// Adds the text of `mode` in a directory.
pub(crate) fn push_mode(tree: &Tree, dir: DirRef, out: &mut TextBuf)
    requires room { 32 ≤ out.old.spare }
    ensures bytes { out.new.bytes ≡ out.old.bytes ++ of_group tree.now.state dir mode_text }
    ensures spare { out.new.spare + length (of_group tree.now.state dir mode_text) ≡ out.old.spare }
{
    if let Some(group) = find_group(tree, dir) {
        push_mode_name(group.mode, out);
    }
}
