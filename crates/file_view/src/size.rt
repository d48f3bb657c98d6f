//! The file `size` of a group.
ghost use Rattle.std.specs.Prelude.{◌≡◌, ◌+◌, ◌≤◌, ◌++◌, length};
ghost use Rattle.machine.specs.Maps.{parameters_of};
ghost use Rattle.file_view.specs.GroupFiles.{size_entry, size_line, size_text};
ghost use Rattle.file_view.specs.Texts.{of_group};

use crate::find::find_group;
use crate::shown::masks_of;
use machine::Machine;
use num_text::push_dec;
use path_names::DirRef;
use rc_base::TextBuf;
use schemata_text::Assignment;
use tree_core::{Group, Tree};

// Adds `id=bytes`.
fn push_entry(m: &Machine, domain: u8, mask: u32, out: &mut TextBuf)
    requires room { 64 ≤ out.old.spare }
    ensures bytes { out.new.bytes ≡ out.old.bytes ++ size_entry (parameters_of m.now) (record { domain = domain; mask = mask }) }
    ensures spare { out.new.spare + length (size_entry (parameters_of m.now) (record { domain = domain; mask = mask })) ≡ out.old.spare }
    ensures short { length (size_entry (parameters_of m.now) (record { domain = domain; mask = mask })) ≤ 24 }
{
    push_dec(u64::from(domain), out);
    out.push(b'=');
    push_dec(m.bytes_of(mask), out);
}

// Adds `L3:` and `id=bytes` of each, separated by `;`.
fn push_entries(m: &Machine, masks: &[Assignment], out: &mut TextBuf)
    requires few { length masks.now ≤ 8 }
    requires room { 512 ≤ out.old.spare }
    ensures bytes { out.new.bytes ≡ out.old.bytes ++ size_line (parameters_of m.now) masks.now }
    ensures spare { out.new.spare + length (size_line (parameters_of m.now) masks.now) ≡ out.old.spare }
    ensures short { length (size_line (parameters_of m.now) masks.now) ≤ 256 }
{
    out.push_all(b"L3:".as_slice());
    let [first, others @ ..] = masks else {
        return;
    };
    push_entry(m, first.domain, first.mask, out);
    for a in others {
        out.push(b';');
        push_entry(m, a.domain, a.mask, out);
    }
}

// Adds the same as in `schemata`, with the bytes of each mask in its place.
#[tactic(auto, unfolding(crate::specs::GroupFiles::size_text))]
fn push_sizes(tree: &Tree, group: &Group, out: &mut TextBuf)
    requires room { 512 ≤ out.old.spare }
    ensures bytes { out.new.bytes ≡ out.old.bytes ++ size_text tree.now.machine tree.now.state group.now }
    ensures spare { out.new.spare + length (size_text tree.now.machine tree.now.state group.now) ≡ out.old.spare }
{
    push_entries(tree.machine(), masks_of(tree, group).as_slice(), out);
    out.push(b'\n');
}

/// Adds the text of `size` in a directory.
pub(crate) fn push_size(tree: &Tree, dir: DirRef, out: &mut TextBuf)
    requires room { 512 ≤ out.old.spare }
    ensures bytes { out.new.bytes ≡ out.old.bytes ++ of_group tree.now.state dir (size_text tree.now.machine tree.now.state) }
    ensures spare { out.new.spare + length (of_group tree.now.state dir (size_text tree.now.machine tree.now.state)) ≡ out.old.spare }
{
    if let Some(group) = find_group(tree, dir) {
        push_sizes(tree, group, out);
    }
}
