//! The control groups that the commands of a run made, in order of creation. The tree is not played for them: a group takes the
//! next serial number where its mkdir is accepted, and the replies tell which were.
ghost use Rattle.std.specs.Prelude.{◌≡◌, ◌+◌, ◌<◌, ◌≤◌, ◌++◌, IfOk, OnOk, Some};
ghost use Rattle.std.specs.Option.{option_to_list};
ghost use Rattle.run_law.specs.Runs.{IsRun};
ghost use Rattle.run_replay.specs.GroupHistories.{made_as, serials_taken};
ghost use Rattle.run_replay.specs.Made.{made_from};
ghost use Rattle.run_replay.specs.Replayed.{AreKnownGroups};
ghost use Rattle.script_ops.specs.Values.{op_at};
ghost use Rattle.script_ops.specs.declared.limits.TheConstants.{MOST_WEIGHT};
ghost use Rattle.tree_law.specs.State.{opening};

use crate::made_group::MadeGroup;
use path_names::{DirRef, PathRef};
use rc_base::{NoMemory, Reply};
use run_law::{Journals, TreeEntry};
use script_ops::{Op, Script};
use std::alloc::Global;

// The serial number of the first group that a command makes; the default group has 0.
const FIRST_GID: u32 = 1;

/// The control groups that were made so far, and the serial number of the next group.
#[derive(Drop)]
pub(crate) struct GroupHistory {
    pub made: Vec<MadeGroup>,
    pub next_gid: u32,
}

// How many serial numbers an op takes, by its reply: one for a control group or a monitor group.
fn serials_taken(op: &Op, reply: Reply) -> u32
    ensures taken { result ≡ serials_taken reply (Some op.now) }
    ensures few { result ≤ 1 }
{
    match (op, reply) {
        (
            Op::Mkdir {
                path: PathRef::Dir(DirRef::Ctrl(_) | DirRef::Mon(_, _)),
            },
            Reply::Ok,
        ) => 1,
        _ => 0,
    }
}

// The control group that an op makes with this serial number, by its reply.
fn made_as(gid: u32, op: &Op, reply: Reply) -> Option<MadeGroup>
    ensures { option_to_list result ≡ made_as gid (Some op.now) reply }
{
    match (op, reply) {
        (
            Op::Mkdir {
                path: PathRef::Dir(DirRef::Ctrl(name)),
            },
            Reply::Ok,
        ) => Some(MadeGroup { gid, name: *name }),
        _ => None,
    }
}

// Notes what an op made.
fn note_op(history: &mut GroupHistory, op: &Op, reply: Reply) -> Result<(), NoMemory>
    requires room { history.old.next_gid ≤ MOST_WEIGHT }
    ensures made { OnOk result (history.new.made.items ≡ history.old.made.items ++ made_as history.old.next_gid (Some op.now) reply) }
    ensures next { OnOk result (history.new.next_gid ≡ history.old.next_gid + serials_taken reply (Some op.now)) }
{
    if let Some(group) = made_as(history.next_gid, op, reply) {
        history.made.push(group)?;
    }
    history.next_gid += serials_taken(op, reply);
    Ok(())
}

// Notes what the command of an entry made.
fn note(history: &mut GroupHistory, script: &Script, entry: &TreeEntry) -> Result<(), NoMemory>
    requires room { history.old.next_gid ≤ MOST_WEIGHT }
    requires known { AreKnownGroups script.now.names history.old.made.items }
    ensures made { OnOk result (history.new.made.items ≡ history.old.made.items ++ made_as history.old.next_gid (op_at script.now entry.now.thread entry.now.op) entry.now.reply) }
    ensures next { OnOk result (history.new.next_gid ≡ history.old.next_gid + serials_taken entry.now.reply (op_at script.now entry.now.thread entry.now.op)) }
    ensures known { OnOk result (AreKnownGroups script.now.names history.new.made.items) }
{
    match script.op(entry.thread, entry.op) {
        Some(op) => note_op(history, op.get(), entry.reply),
        None => Ok(()),
    }
}

/// The control groups that the commands of a run made, in order of creation and so of their gids.
pub fn made_groups(
    alloc: Global,
    script: &Script,
    journals: &Journals,
) -> Result<Vec<MadeGroup>, NoMemory>
    requires { IsRun script.now journals.now }
    ensures made { IfOk result (λ made. made.items ≡ made_from script.now (opening script.now.machine script.now.tasks) journals.now.tree) }
    ensures known { IfOk result (λ made. AreKnownGroups script.now.names made.items) }
{
    // A script is light, and so a run of it has few commands.
    let _threads = script.threads();
    let tree = journals.tree();
    let mut history = GroupHistory {
        made: Vec::new(alloc),
        next_gid: FIRST_GID,
    };
    for entry in tree {
        note(&mut history, script, entry)?;
    }
    Ok(history.made)
}
