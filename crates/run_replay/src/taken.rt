//! Commands that the tree takes once more.
ghost use Rattle.std.specs.Prelude.{◌≡◌, ◌+◌, ◌<◌, IsTrue, is_some, length};
ghost use Rattle.run_replay.specs.Replayed.{IsCounted, IsOpOf, IsReplay};
ghost use Rattle.run_law.specs.Entries.{entry_value};
ghost use Rattle.run_law.specs.TreeHistory.{state_after};
ghost use Rattle.script_ops.specs.Values.{op_at};
ghost use Rattle.script_ops.specs.declared.limits.TheConstants.{MOST_WEIGHT};
ghost use Rattle.tree_law.specs.Steps.{needs};

use crate::replay::Replay;
use run_law::TreeEntry;
use script_ops::{Op, OpAt, Script};

/// The op of an entry.
pub(crate) fn op_of<'a>(script: &'a Script, entry: &TreeEntry) -> OpAt<'a>
    requires { IsTrue (is_some (op_at script.now entry.now.thread entry.now.op)) }
    ensures { IsOpOf script.now entry.now.thread entry.now.op result }
{
    match script.op(entry.thread, entry.op) {
        Some(op) => op,
        None => unreachable!(),
    }
}

// Takes this op of an entry once more.
fn take_op(replay: &mut Replay, script: &Script, entry: &TreeEntry, op: &Op)
    requires replay { IsReplay script.now replay.old }
    requires op { IsOpOf script.now entry.now.thread entry.now.op op.now }
    requires looks { length entry.now.looks.numbers ≡ length (needs script.now.machine replay.old.state op.now) }
    requires epoch { replay.old.epoch < MOST_WEIGHT }
    ensures replay { IsReplay script.now replay.new }
    ensures state { replay.new.state ≡ state_after script.now.machine replay.old.state entry.now.looks.numbers (op_at script.now entry.now.thread entry.now.op) }
    ensures epoch { replay.new.epoch ≡ replay.old.epoch + 1 }
{
    replay.take(op, entry.looks.items());
}

/// Takes the op of an entry once more.
pub(crate) fn take(replay: &mut Replay, script: &Script, entry: &TreeEntry)
    requires replay { IsReplay script.now replay.old }
    requires counted { IsCounted script.now replay.old.state (entry_value entry.now) }
    requires epoch { replay.old.epoch < MOST_WEIGHT }
    ensures replay { IsReplay script.now replay.new }
    ensures state { replay.new.state ≡ state_after script.now.machine replay.old.state entry.now.looks.numbers (op_at script.now entry.now.thread entry.now.op) }
    ensures epoch { replay.new.epoch ≡ replay.old.epoch + 1 }
{
    let op = op_of(script, entry);
    take_op(replay, script, entry, op.get());
}
