//! The file `tasks` of a group.
ghost use Rattle.std.specs.Prelude.{◌≡◌, ◌+◌, ◌≤◌, ◌++◌, length};
ghost use Rattle.std.specs.List.{flat_map};
ghost use Rattle.rc_base.specs.declared.text_buf.TheConstants.{TEXT_MAX};
ghost use Rattle.script_ops.specs.declared.limits.TheConstants.{MOST_TASKS};
ghost use Rattle.file_view.specs.GroupFiles.{is_task_of, task_line, tasks_text};
ghost use Rattle.file_view.specs.Texts.{of_group};

use crate::find::find_group;
use crate::numbers::{NUMBER_MAX, push_number};
use path_names::DirRef;
use rc_base::TextBuf;
use task_binding::Binding;
use tree_core::{Group, GroupKind, Tree};

// Whether a task is a group's: a control group has those that it allocates for, a monitor group those that it counts.
fn is_task_of(group: &Group, binding: &Binding) -> bool
    ensures { result ≡ is_task_of group.now binding.now }
{
    match group.kind {
        GroupKind::Control => binding.control == group.gid,
        GroupKind::Monitor { .. } => binding.monitor == group.gid,
    }
}

// Adds the id of a task, where it is the group's, on its line.
fn push_task(group: &Group, binding: &Binding, out: &mut TextBuf)
    requires room { NUMBER_MAX ≤ out.old.spare }
    ensures bytes { out.new.bytes ≡ out.old.bytes ++ task_line group.now binding.now }
    ensures spare { out.new.spare + length (task_line group.now binding.now) ≡ out.old.spare }
    ensures short { length (task_line group.now binding.now) ≤ NUMBER_MAX }
{
    if is_task_of(group, binding) {
        push_number(u64::from(binding.task), out);
    }
}

// Adds the ids of those of these tasks that are the group's, each on its line.
fn push_members(group: &Group, bindings: &[Binding], out: &mut TextBuf)
    requires few { length bindings.now ≤ MOST_TASKS }
    requires room { TEXT_MAX ≤ out.old.spare }
    ensures bytes { out.new.bytes ≡ out.old.bytes ++ flat_map (task_line group.now) bindings.now }
    ensures spare { out.new.spare + length (flat_map (task_line group.now) bindings.now) ≡ out.old.spare }
{
    for binding in bindings {
        push_task(group, binding, out);
    }
}

// Adds the ids of the tasks of a group, each on its line.
fn push_tasks_of(tree: &Tree, group: &Group, out: &mut TextBuf)
    requires room { TEXT_MAX ≤ out.old.spare }
    ensures bytes { out.new.bytes ≡ out.old.bytes ++ tasks_text tree.now.state group.now }
    ensures spare { out.new.spare + length (tasks_text tree.now.state group.now) ≡ out.old.spare }
{
    push_members(group, tree.tasks().bindings(), out);
}

/// Adds the text of `tasks` in a directory.
pub(crate) fn push_tasks(tree: &Tree, dir: DirRef, out: &mut TextBuf)
    requires room { TEXT_MAX ≤ out.old.spare }
    ensures bytes { out.new.bytes ≡ out.old.bytes ++ of_group tree.now.state dir (tasks_text tree.now.state) }
    ensures spare { out.new.spare + length (of_group tree.now.state dir (tasks_text tree.now.state)) ≡ out.old.spare }
{
    if let Some(group) = find_group(tree, dir) {
        push_tasks_of(tree, group, out);
    }
}
