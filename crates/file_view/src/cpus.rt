//! The files `cpus` and `cpus_list` of a group.
ghost use Rattle.std.specs.Prelude.{◌≡◌, ◌+◌, ◌<◌, ◌≤◌, ◌^◌, ◌++◌, length};
ghost use Rattle.tree_law.specs.Space.{mask_of};
ghost use Rattle.file_view.specs.GroupFiles.{cpu_set as shown_set, cpus_list_text, cpus_of, cpus_of_region, cpus_text};
ghost use Rattle.file_view.specs.Texts.{of_group};

use crate::find::find_group;
use crate::shown::has_region;
use cpu_lists::{print_list, print_mask};
use path_names::DirRef;
use rc_base::{Mode, TextBuf};
use tree_core::{Group, GroupKind, Tree};

// The CPUs that a group has, bit c for CPU c.
fn own_set(tree: &Tree, group: &Group) -> u64
    ensures { result ≡ mask_of (cpus_of tree.now.state group.now) }
{
    match group.kind {
        GroupKind::Control => tree.cpus().ctrl_set(group.gid),
        GroupKind::Monitor { .. } => tree.cpus().mon_set(group.gid),
    }
}

// The CPUs of the domain that has the region of a group, bit c for CPU c.
fn region_set(tree: &Tree, group: &Group) -> u64
    ensures { result ≡ mask_of (cpus_of_region tree.now.machine tree.now.state group.now) }
{
    let mut set = 0;
    for cpu in 0..tree.machine().cpus {
        if has_region(tree, group.gid, tree.machine().domain_of(cpu)) {
            set |= 1 << cpu;
        }
    }
    set
}

// The CPUs that the files of a group show, bit c for CPU c.
fn cpu_set(tree: &Tree, group: &Group) -> u64
    ensures { result ≡ shown_set tree.now.machine tree.now.state group.now }
{
    match group.mode {
        Mode::Locked => region_set(tree, group),
        Mode::Shareable | Mode::Exclusive | Mode::LockSetup => own_set(tree, group),
    }
}

// Adds the CPUs of a group as a mask, on its line.
fn push_mask(tree: &Tree, group: &Group, out: &mut TextBuf)
    requires room { 512 ≤ out.old.spare }
    ensures bytes { out.new.bytes ≡ out.old.bytes ++ cpus_text tree.now.machine tree.now.state group.now }
    ensures spare { out.new.spare + length (cpus_text tree.now.machine tree.now.state group.now) ≡ out.old.spare }
{
    print_mask(cpu_set(tree, group), tree.machine().cpus, out);
    out.push(b'\n');
}

// Adds the CPUs of a group as a list, on its line.
fn push_list(tree: &Tree, group: &Group, out: &mut TextBuf)
    requires room { 512 ≤ out.old.spare }
    ensures bytes { out.new.bytes ≡ out.old.bytes ++ cpus_list_text tree.now.machine tree.now.state group.now }
    ensures spare { out.new.spare + length (cpus_list_text tree.now.machine tree.now.state group.now) ≡ out.old.spare }
{
    print_list(cpu_set(tree, group), out);
    out.push(b'\n');
}

/// Adds the text of `cpus` in a directory.
pub(crate) fn push_cpus(tree: &Tree, dir: DirRef, out: &mut TextBuf)
    requires room { 512 ≤ out.old.spare }
    ensures bytes { out.new.bytes ≡ out.old.bytes ++ of_group tree.now.state dir (cpus_text tree.now.machine tree.now.state) }
    ensures spare { out.new.spare + length (of_group tree.now.state dir (cpus_text tree.now.machine tree.now.state)) ≡ out.old.spare }
{
    if let Some(group) = find_group(tree, dir) {
        push_mask(tree, group, out);
    }
}

/// Adds the text of `cpus_list` in a directory.
pub(crate) fn push_cpus_list(tree: &Tree, dir: DirRef, out: &mut TextBuf)
    requires room { 512 ≤ out.old.spare }
    ensures bytes { out.new.bytes ≡ out.old.bytes ++ of_group tree.now.state dir (cpus_list_text tree.now.machine tree.now.state) }
    ensures spare { out.new.spare + length (of_group tree.now.state dir (cpus_list_text tree.now.machine tree.now.state)) ≡ out.old.spare }
{
    if let Some(group) = find_group(tree, dir) {
        push_list(tree, group, out);
    }
}
