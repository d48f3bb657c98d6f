//! Moving the tasks that a text names to a group.
ghost use Rattle.std.specs.Prelude.{◌≡◌, IfNone, IfSome, OnErr, OnOk, [], ◌∷◌};
ghost use Rattle.std.specs.Option.{option_map};
ghost use Rattle.task_binding.specs.Bindings.{binding_of, changed, is_of};
ghost use Rattle.command_parts.specs.Replies.{reply_to};
ghost use Rattle.command_parts.specs.TaskMoves.{refusal_of};
ghost use Rattle.tree_law.specs.Refusals.{reply_of};
ghost use Rattle.tree_law.specs.commands.Tasks.{against_binding, against_task, elements, in_group, moved, moves, task_in, without_empty_last};

use group_tree::GroupKind;
use num_text::{cut, read_dec, trim};
use rc_base::{Gid, Reply, Why};
use task_binding::{BindFault, Tasks};

/// Moves the tasks of a text to a group, up to the first element that cannot. The elements are task numbers in decimal, separated by `,`;
/// an empty last one does not count. The reply is ok, or why that element cannot move; the tasks before it stay moved then (kernel
/// documentation, `tasks`; the form of the text is this project's profile).
pub fn move_tasks(tasks: &mut Tasks, gid: Gid, kind: GroupKind, text: &[u8]) -> Reply
    ensures reply { result ≡ reply_of (moves gid kind (elements text.now) tasks.old).ended }
    ensures tasks { tasks.new ≡ (moves gid kind (elements text.now) tasks.old).tasks }
{
    let mut left = trim(text);
    'elements: loop {
        let (element, more) = cut(left, b',');
        let Some(rest) = more else {
            return move_last(tasks, gid, kind, element);
        };
        if let Some(refused) = move_task(tasks, gid, kind, element) {
            return refused;
        }
        left = rest;
    }
}

// Moves the task of the last element, which does not count where it is empty.
fn move_last(tasks: &mut Tasks, gid: Gid, kind: GroupKind, element: &[u8]) -> Reply
    ensures reply { result ≡ reply_of (moves gid kind (without_empty_last (element.now ∷ [])) tasks.old).ended }
    ensures tasks { tasks.new ≡ (moves gid kind (without_empty_last (element.now ∷ [])) tasks.old).tasks }
{
    if element.is_empty() {
        return Reply::Ok;
    }
    match move_task(tasks, gid, kind, element) {
        Some(refused) => refused,
        None => Reply::Ok,
    }
}

// Moves the task that an element names, or says what is against it.
fn move_task(tasks: &mut Tasks, gid: Gid, kind: GroupKind, element: &[u8]) -> Option<Reply>
    ensures against { result ≡ option_map reply_to (against_task kind tasks.old (task_in element.now)) }
    ensures kept { IfSome result (λ r. tasks.new ≡ tasks.old) }
    ensures moved { IfNone result (tasks.new ≡ moved gid kind (task_in element.now) tasks.old) }
{
    let Some(task) = read_dec(trim(element)) else {
        return Some(Reply::refused(Why::BadTaskList, 0));
    };
    match bind(tasks, gid, kind, task) {
        Ok(()) => None,
        Err(BindFault::NoTask) => Some(Reply::refused(Why::NoTask, task)),
        Err(BindFault::OtherControl) => Some(Reply::refused(Why::OtherControl, task)),
    }
}

// Binds a task to a control group, or counts it in a monitor group.
fn bind(tasks: &mut Tasks, gid: Gid, kind: GroupKind, task: u64) -> Result<(), BindFault>
    ensures against { refusal_of task result ≡ against_binding kind task (binding_of task tasks.old) }
    ensures ok { OnOk result (tasks.new ≡ changed (is_of task) (in_group gid kind) tasks.old) }
    ensures err { OnErr result (tasks.new ≡ tasks.old) }
{
    match kind {
        GroupKind::Control => tasks.bind_ctrl(task, gid),
        GroupKind::Monitor { parent } => tasks.bind_mon(task, parent, gid),
    }
}
