//! The groups that get ways.
ghost use Rattle.std.specs.Prelude.{◌≡◌, ◌∷◌, [], ◌++◌, IfOk, OnOk, filter};
ghost use Rattle.tree_law.specs.Counted.{is_counted};
ghost use Rattle.way_plans.specs.Plans.{planned};

use group_tree::{Group, GroupKind};
use rc_base::{Mode, NoMemory};
use std::alloc::Global;
use tree_core::Tree;

// Whether it is a control group that is shareable or exclusive.
fn is_counted(group: &Group) -> bool
    ensures { result ≡ is_counted group.now }
{
    matches!(group.kind, GroupKind::Control)
        && matches!(group.mode, Mode::Shareable | Mode::Exclusive)
}

// Adds the group, where it gets ways.
fn push_counted(found: &mut Vec<Group>, group: &Group) -> Result<(), NoMemory>
    ensures { OnOk result (found.new.items ≡ found.old.items ++ filter is_counted (group.now ∷ [])) }
{
    if is_counted(group) {
        found.push(*group)?;
    }
    Ok(())
}

/// The groups of a tree that get ways: the control groups that are shareable or exclusive, in order of creation and so of their
/// gids. NoMemory where the allocator gives no room for the list.
pub fn planned_groups(alloc: Global, tree: &Tree) -> Result<Vec<Group>, NoMemory>
    ensures { IfOk result (λ groups. groups.items ≡ planned tree.now.state) }
{
    let groups = tree.groups();
    let mut found: Vec<Group> = Vec::new(alloc);
    for i in 0..groups.len() {
        match groups.at(i) {
            Some(group) => push_counted(&mut found, group)?,
            None => unreachable!(),
        }
    }
    Ok(found)
}
