//! The texts that the accepted reads and lists of a run gave.
ghost use Rattle.std.specs.Prelude.{◌≡◌, ◌+◌, ◌≤◌, ◌^◌, ◌++◌, All, IfOk, IsTrue, None, OnOk, Some, [], is_some, length, unwrap_or};
ghost use Rattle.file_view.specs.Texts.{is_reading, text_of};
ghost use Rattle.run_replay.specs.CommandsOfRuns.{IsInRun, IsTreeBefore, given_at, state_at_command};
ghost use Rattle.run_replay.specs.Playbacks.{given_by};
ghost use Rattle.rc_base.specs.declared.replies.Reply.TheVariants.{Ok};
ghost use Rattle.rc_base.specs.declared.text_buf.TheConstants.{TEXT_MAX};
ghost use Rattle.run_replay.specs.Replayed.{IsReplay};
ghost use Rattle.script_ops.specs.Values.{op_at};
ghost use Rattle.tree_law.specs.Steps.{needs, refusal};

use crate::command_at::CommandAt;
use crate::playback::Playback;
use file_view::{is_reading, text};
use rc_base::{NoMemory, Reply, TEXT_MAX, TextBuf};
use script_ops::{Op, Script};
use std::alloc::Global;
use std::marker::Model;
use tree_core::Tree;

/// The texts that the accepted reads and lists of a run gave, each asked for after those before it. The tree that is lent for them
/// is taken through its history only as far as the latest of them. Contracts see the latest text.
#[derive(Drop)]
pub struct GivenTexts {
    latest: TextBuf,
}

impl Model for GivenTexts {
    ghost use Rattle.std.specs.Prelude.{ℕ, ◌+◌, ◌≤◌, List, length};
    ghost use Rattle.rc_base.specs.declared.text_buf.TheConstants.{TEXT_MAX};

    ghost Value = { List ℕ };

    ghost view = { λ t. t.latest.bytes };

    ghost invariant = { λ t. TEXT_MAX ≤ t.latest.spare + length t.latest.bytes };
}

// Adds the text of a read or a list that the tree accepts, with its counts.
fn push_text(tree: &Tree, script: &Script, op: &Op, looks: &[u64], out: &mut TextBuf)
    requires replay { IsReplay script.now tree.now }
    requires reading { IsTrue (is_reading op.now) }
    requires accepted { refusal script.now.machine tree.now.state op.now ≡ None }
    requires looks { length looks.now ≡ length (needs script.now.machine tree.now.state op.now) }
    requires counts { All (λ n. n ≤ 2 ^ 32) looks.now }
    requires room { TEXT_MAX ≤ out.old.spare }
    ensures bytes { out.new.bytes ≡ out.old.bytes ++ text_of script.now.machine tree.now.state script.now.names op.now looks.now }
    ensures room { out.new.spare + length out.new.bytes ≡ out.old.spare + length out.old.bytes }
{
    text(tree, script.names(), op, looks, out);
}

// Adds the text of this accepted read or list, by the state before it.
fn push_reading<R: Playback>(
    replay: &mut R,
    command: &CommandAt<'_>,
    op: &Op,
    out: &mut TextBuf,
) -> Result<(), NoMemory>
    requires taken { IsTreeBefore command.now (R.played replay.old) }
    requires notes { R.notes command.now.run.script.now command.now.run.journals.now replay.old }
    requires entry { IsInRun command.now }
    requires op { op_at command.now.run.script.now command.now.entry.now.thread command.now.entry.now.op ≡ Some op.now }
    requires accepted { command.now.entry.now.reply ≡ Ok }
    requires reading { IsTrue (is_reading op.now) }
    requires room { TEXT_MAX ≤ out.old.spare }
    ensures taken { OnOk result (IsTreeBefore command.now (R.played replay.new)) }
    ensures notes { OnOk result (R.notes command.now.run.script.now command.now.run.journals.now replay.new) }
    ensures bytes { OnOk result (out.new.bytes ≡ out.old.bytes ++ text_of command.now.run.script.now.machine (state_at_command command.now) command.now.run.script.now.names op.now command.now.entry.now.looks.numbers) }
    ensures room { out.new.spare + length out.new.bytes ≡ out.old.spare + length out.old.bytes }
{
    replay.play_to(command.run.script, command.run.journals, command.position)?;
    let looks = command.entry.looks.items();
    push_text(replay.tree(), command.run.script, op, looks, out);
    Ok(())
}

// Adds the text of this accepted op, where it is a read or a list, and answers whether it is one.
fn push_op<R: Playback>(
    replay: &mut R,
    command: &CommandAt<'_>,
    op: &Op,
    out: &mut TextBuf,
) -> Result<bool, NoMemory>
    requires taken { IsTreeBefore command.now (R.played replay.old) }
    requires notes { R.notes command.now.run.script.now command.now.run.journals.now replay.old }
    requires entry { IsInRun command.now }
    requires op { op_at command.now.run.script.now command.now.entry.now.thread command.now.entry.now.op ≡ Some op.now }
    requires accepted { command.now.entry.now.reply ≡ Ok }
    requires room { TEXT_MAX ≤ out.old.spare }
    ensures taken { OnOk result (IsTreeBefore command.now (R.played replay.new)) }
    ensures notes { OnOk result (R.notes command.now.run.script.now command.now.run.journals.now replay.new) }
    ensures shown { IfOk result (λ shown. shown ≡ is_some (given_by command.now.run.script.now (state_at_command command.now) command.now.entry.now.looks.numbers Ok (Some op.now))) }
    ensures bytes { OnOk result (out.new.bytes ≡ out.old.bytes ++ unwrap_or (given_by command.now.run.script.now (state_at_command command.now) command.now.entry.now.looks.numbers Ok (Some op.now)) []) }
    ensures room { out.new.spare + length out.new.bytes ≡ out.old.spare + length out.old.bytes }
{
    if !is_reading(op) {
        return Ok(false);
    }
    push_reading(replay, command, op, out)?;
    Ok(true)
}

// Adds the text of this accepted command, where it is a read or a list, and answers whether it is one.
fn push_accepted<R: Playback>(
    replay: &mut R,
    command: &CommandAt<'_>,
    out: &mut TextBuf,
) -> Result<bool, NoMemory>
    requires taken { IsTreeBefore command.now (R.played replay.old) }
    requires notes { R.notes command.now.run.script.now command.now.run.journals.now replay.old }
    requires entry { IsInRun command.now }
    requires accepted { command.now.entry.now.reply ≡ Ok }
    requires room { TEXT_MAX ≤ out.old.spare }
    ensures taken { OnOk result (IsTreeBefore command.now (R.played replay.new)) }
    ensures notes { OnOk result (R.notes command.now.run.script.now command.now.run.journals.now replay.new) }
    ensures shown { IfOk result (λ shown. shown ≡ is_some (given_at command.now)) }
    ensures bytes { OnOk result (out.new.bytes ≡ out.old.bytes ++ unwrap_or (given_at command.now) []) }
    ensures room { out.new.spare + length out.new.bytes ≡ out.old.spare + length out.old.bytes }
{
    let entry = command.entry;
    match command.run.script.op(entry.thread, entry.op) {
        Some(op) => push_op(replay, command, op.get(), out),
        None => Ok(false),
    }
}

impl GivenTexts {
    /// The texts of a run, of which none was asked for yet.
    pub fn create(alloc: Global) -> Result<GivenTexts, NoMemory>
        ensures { IfOk result (λ texts. texts ≡ []) }
    {
        let latest = TextBuf::with_room(alloc, TEXT_MAX)?;
        Ok(GivenTexts { latest })
    }

    /// Makes the text that the command at a position gave the latest one, and answers whether it gave one: an accepted read or
    /// list did. The latest text is empty where it gave none. The tree is taken to the position only where a text is given.
    pub fn give<R: Playback>(
        &mut self,
        replay: &mut R,
        command: &CommandAt<'_>,
    ) -> Result<bool, NoMemory>
        requires taken { IsTreeBefore command.now (R.played replay.old) }
        requires notes { R.notes command.now.run.script.now command.now.run.journals.now replay.old }
        requires entry { IsInRun command.now }
        ensures taken { OnOk result (IsTreeBefore command.now (R.played replay.new)) }
        ensures notes { OnOk result (R.notes command.now.run.script.now command.now.run.journals.now replay.new) }
        ensures shown { IfOk result (λ shown. shown ≡ is_some (given_at command.now)) }
        ensures latest { OnOk result (self.new ≡ unwrap_or (given_at command.now) []) }
    {
        self.latest.clear();
        match command.entry.reply {
            Reply::Ok => push_accepted(replay, command, &mut self.latest),
            Reply::Refused { .. } => Ok(false),
        }
    }

    /// The latest text.
    pub fn latest(&self) -> &[u8]
        ensures { result.now ≡ self.now }
    {
        self.latest.bytes()
    }
}
