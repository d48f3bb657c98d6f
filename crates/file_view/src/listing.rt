//! The listings of directories.
ghost use Rattle.std.specs.Prelude.{◌≡◌, ◌+◌, ◌≤◌, ◌++◌, length};
ghost use Rattle.file_view.specs.Lines.{on_line, on_lines};
ghost use Rattle.file_view.specs.Listings.{group_line, group_name, groups_in, is_listed, list_text, names_in};
ghost use Rattle.rc_base.specs.declared.text_buf.TheConstants.{TEXT_MAX};
ghost use Rattle.tree_core.specs.Named.{AreNamed, IsNamed};

use crate::fixed::push_fixed;
use crate::lines::{LINE_MAX, push_name};
use group_tree::PLACES;
use path_names::{DirRef, Names};
use rc_base::{Gid, TextBuf};
use tree_core::{Group, GroupKind, Groups, Tree};

// How many bytes the names of all groups have at most, each on its line.
const GROUPS_MAX: usize = PLACES * LINE_MAX;

/// Whether a group stands in the directory of groups of this parent, or in the root where none is named.
pub(crate) fn is_listed(parent: Option<Gid>, group: &Group) -> bool
    ensures { result ≡ is_listed parent group.now }
{
    match (parent, group.kind) {
        (None, GroupKind::Control) => group.name.is_some(),
        (Some(gid), GroupKind::Monitor { parent }) => gid.0 == parent.0,
        _ => false,
    }
}

// Adds the name of a group.
fn push_group_name(names: &Names, group: &Group, out: &mut TextBuf)
    requires named { IsNamed names.now group.now }
    requires room { LINE_MAX ≤ out.old.spare }
    ensures bytes { out.new.bytes ≡ out.old.bytes ++ on_line (group_name names.now group.now) }
    ensures spare { out.new.spare + length (on_line (group_name names.now group.now)) ≡ out.old.spare }
    ensures short { length (on_line (group_name names.now group.now)) ≤ LINE_MAX }
{
    match group.name {
        Some(id) => push_name(out, names.text(id)),
        None => push_name(out, b""),
    }
}

// Adds the name of a group that stands in the directory of groups of this parent.
fn push_group(names: &Names, parent: Option<Gid>, group: &Group, out: &mut TextBuf)
    requires named { IsNamed names.now group.now }
    requires room { LINE_MAX ≤ out.old.spare }
    ensures bytes { out.new.bytes ≡ out.old.bytes ++ group_line names.now parent group.now }
    ensures spare { out.new.spare + length (group_line names.now parent group.now) ≡ out.old.spare }
    ensures short { length (group_line names.now parent group.now) ≤ LINE_MAX }
{
    if is_listed(parent, group) {
        push_group_name(names, group, out);
    }
}

/// Adds the names of the groups that stand in the directory of groups of this parent, or in the root where none is named.
pub(crate) fn push_groups(groups: &Groups, names: &Names, parent: Option<Gid>, out: &mut TextBuf)
    requires named { AreNamed names.now groups.now.groups }
    requires room { GROUPS_MAX ≤ out.old.spare }
    ensures bytes { out.new.bytes ≡ out.old.bytes ++ on_lines (names_in names.now parent groups.now.groups) }
    ensures spare { out.new.spare + length (on_lines (names_in names.now parent groups.now.groups)) ≡ out.old.spare }
{
    for i in 0..groups.len() {
        if let Some(group) = groups.at(i) {
            push_group(names, parent, group, out);
        }
    }
}

// Adds the names of the groups whose directories stand in a directory.
fn push_groups_in(tree: &Tree, names: &Names, dir: DirRef, out: &mut TextBuf)
    requires named { AreNamed names.now tree.now.state.groups }
    requires room { GROUPS_MAX ≤ out.old.spare }
    ensures bytes { out.new.bytes ≡ out.old.bytes ++ on_lines (groups_in tree.now.state names.now dir) }
    ensures spare { out.new.spare + length (on_lines (groups_in tree.now.state names.now dir)) ≡ out.old.spare }
{
    match dir {
        DirRef::Root => push_groups(tree.groups(), names, None, out),
        DirRef::MonGroups(owner) => {
            if let Some(gid) = tree.owner_gid(owner) {
                push_groups(tree.groups(), names, Some(gid), out);
            }
        }
        _ => {}
    }
}

/// Adds the names of a directory's fixed entries and those of the groups in it, each on its line.
#[tactic(auto, unfolding(crate::specs::Listings::list_text))]
pub(crate) fn push_list(tree: &Tree, names: &Names, dir: DirRef, out: &mut TextBuf)
    requires named { AreNamed names.now tree.now.state.groups }
    requires room { TEXT_MAX ≤ out.old.spare }
    ensures bytes { out.new.bytes ≡ out.old.bytes ++ list_text tree.now.machine tree.now.state names.now dir }
    ensures spare { out.new.spare + length (list_text tree.now.machine tree.now.state names.now dir) ≡ out.old.spare }
{
    push_fixed(tree.machine(), dir, out);
    push_groups_in(tree, names, dir, out);
}
