//! The file `schemata` of a group.
ghost use Rattle.std.specs.Prelude.{◌≡◌, ◌+◌, ◌≤◌, ◌++◌, length};
ghost use Rattle.file_view.specs.GroupFiles.{schemata_text};
ghost use Rattle.file_view.specs.Texts.{of_group};

use crate::find::find_group;
use crate::shown::masks_of;
use path_names::DirRef;
use rc_base::TextBuf;
use schemata_text::print;
use tree_core::{Group, Tree};

// Adds `L3:`, each domain with its mask, and a newline.
#[tactic(auto, unfolding(crate::specs::GroupFiles::schemata_text))]
fn push_masks(tree: &Tree, group: &Group, out: &mut TextBuf)
    requires room { 256 ≤ out.old.spare }
    ensures bytes { out.new.bytes ≡ out.old.bytes ++ schemata_text tree.now.machine tree.now.state group.now }
    ensures spare { out.new.spare + length (schemata_text tree.now.machine tree.now.state group.now) ≡ out.old.spare }
{
    print(masks_of(tree, group).as_slice(), tree.machine().ways, out);
    out.push(b'\n');
}

/// Adds the text of `schemata` in a directory.
pub(crate) fn push_schemata(tree: &Tree, dir: DirRef, out: &mut TextBuf)
    requires room { 256 ≤ out.old.spare }
    ensures bytes { out.new.bytes ≡ out.old.bytes ++ of_group tree.now.state dir (schemata_text tree.now.machine tree.now.state) }
    ensures spare { out.new.spare + length (of_group tree.now.state dir (schemata_text tree.now.machine tree.now.state)) ≡ out.old.spare }
{
    if let Some(group) = find_group(tree, dir) {
        push_masks(tree, group, out);
    }
}
