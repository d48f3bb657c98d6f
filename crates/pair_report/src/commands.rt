//! The lines of commands.
ghost use Rattle.std.specs.Prelude.{◌≡◌, ◌+◌, ◌<◌, ◌≤◌, ◌++◌, List, ℕ, OnOk, length};
ghost use Rattle.pair_law.specs.Epochs.{state_at};
ghost use Rattle.pair_text.specs.Values.{commands_of, epoch_at};
ghost use Rattle.pair_windows.specs.Replays.{IsPlayable};
ghost use Rattle.pair_report.specs.LinesBefore.{IsBehind, lines_before};
ghost use Rattle.pair_report.specs.PairCommands.{command_line, commands_part, given_lines};
ghost use Rattle.pair_tree.specs.Reads.{text_read};
ghost use Rattle.rc_base.specs.declared.text_buf.TheConstants.{TEXT_MAX};
ghost use Rattle.report_pieces.specs.Pieces.{barred};

use crate::answered_command::AnsweredCommand;
use crate::command_text::push_command;
use crate::command_walk::CommandWalk;
use crate::counts::reply_at;
use num_text::GrowingText;
use pair_text::{PairOp, PairScript};
use pair_tree::PairTree;
use pair_windows::{Replay, is_command};
use rc_base::{NoMemory, Reply, TEXT_MAX, TextBuf};
use report_pieces::{push_barred, push_reply};
use std::alloc::Global;

// Adds the lines of a file's text. What `file` held before is gone.
fn push_file_text(
    report: &mut GrowingText,
    tree: &PairTree,
    op: &PairOp,
    file: &mut TextBuf,
) -> Result<(), NoMemory>
    requires room { TEXT_MAX ≤ file.old.spare + length file.old.bytes }
    ensures text { OnOk result (report.new ≡ report.old ++ barred (text_read tree.now.machines tree.now.state op.now)) }
    ensures room { file.new.spare + length file.new.bytes ≡ file.old.spare + length file.old.bytes }
{
    file.clear();
    tree.text(op, file);
    push_barred(report, file.bytes())
}

// Adds the lines of the text of a read, by the tree before it.
fn push_text_of(
    report: &mut GrowingText,
    walk: &mut CommandWalk,
    script: &PairScript,
    command: &AnsweredCommand<'_>,
) -> Result<(), NoMemory>
    requires playable { IsPlayable script.now }
    requires behind { IsBehind script.now command.now.place walk.old.replay }
    requires within { command.now.place < length script.now.ops }
    requires room { TEXT_MAX ≤ walk.old.file.spare + length walk.old.file.bytes }
    ensures text { OnOk result (report.new ≡ report.old ++ barred (text_read script.now.machines (state_at script.now (epoch_at script.now command.now.place)) command.now.op.now)) }
    ensures behind { OnOk result (IsBehind script.now command.now.place walk.new.replay) }
    ensures room { OnOk result (walk.new.file.spare + length walk.new.file.bytes ≡ walk.old.file.spare + length walk.old.file.bytes) }
{
    walk.replay.reach(script, command.place);
    push_file_text(report, walk.replay.tree(), command.op, &mut walk.file)?;
    Ok(())
}

// Adds the lines of what a command gave, where it was an accepted read: for no other is the tree taken there.
fn push_given(
    report: &mut GrowingText,
    walk: &mut CommandWalk,
    script: &PairScript,
    command: &AnsweredCommand<'_>,
) -> Result<(), NoMemory>
    requires playable { IsPlayable script.now }
    requires behind { IsBehind script.now command.now.place walk.old.replay }
    requires within { command.now.place < length script.now.ops }
    requires room { TEXT_MAX ≤ walk.old.file.spare + length walk.old.file.bytes }
    ensures text { OnOk result (report.new ≡ report.old ++ given_lines script.now.machines (state_at script.now (epoch_at script.now command.now.place)) command.now.op.now command.now.reply) }
    ensures behind { OnOk result (IsBehind script.now command.now.place walk.new.replay) }
    ensures room { OnOk result (walk.new.file.spare + length walk.new.file.bytes ≡ walk.old.file.spare + length walk.old.file.bytes) }
{
    match (command.op, command.reply) {
        (PairOp::Read { .. }, Reply::Ok) => push_text_of(report, walk, script, command),
        _ => Ok(()),
    }
}

// Adds the line of a command, with what it gave.
#[tactic(auto, unfolding(crate::specs::PairCommands::command_line))]
fn push_line(
    report: &mut GrowingText,
    walk: &mut CommandWalk,
    script: &PairScript,
    command: &AnsweredCommand<'_>,
) -> Result<(), NoMemory>
    requires playable { IsPlayable script.now }
    requires behind { IsBehind script.now command.now.place walk.old.replay }
    requires within { command.now.place < length script.now.ops }
    requires room { TEXT_MAX ≤ walk.old.file.spare + length walk.old.file.bytes }
    ensures text { OnOk result (report.new ≡ report.old
        ++ command_line script.now.machines (state_at script.now (epoch_at script.now command.now.place)) command.now.position command.now.op.now command.now.reply) }
    ensures behind { OnOk result (IsBehind script.now command.now.place walk.new.replay) }
    ensures room { OnOk result (walk.new.file.spare + length walk.new.file.bytes ≡ walk.old.file.spare + length walk.old.file.bytes) }
{
    report.push_decimal(command.position as u64)?;
    report.push(b" ".as_slice())?;
    push_command(report, command.op)?;
    report.push(b": ".as_slice())?;
    push_reply(report, command.reply)?;
    report.push(b"\n".as_slice())?;
    push_given(report, walk, script, command)
}

// Adds the line of the op at a place, where it is a command.
fn push_next(
    report: &mut GrowingText,
    walk: &mut CommandWalk,
    script: &PairScript,
    replies: &[Reply],
    place: usize,
) -> Result<(), NoMemory>
    requires playable { IsPlayable script.now }
    requires behind { IsBehind script.now place walk.old.replay }
    requires within { place < length script.now.ops }
    requires before { walk.old.commands ≡ epoch_at script.now place }
    requires answered { length replies.now ≡ length (commands_of script.now) }
    requires room { TEXT_MAX ≤ walk.old.file.spare + length walk.old.file.bytes }
    ensures before { OnOk result (walk.new.commands ≡ epoch_at script.now (place + 1)) }
    ensures text { OnOk result ((before : List ℕ) → report.old ≡ before ++ lines_before script.now replies.now place → report.new ≡ before ++ lines_before script.now replies.now (place + 1)) }
    ensures behind { OnOk result (IsBehind script.now (place + 1) walk.new.replay) }
    ensures room { OnOk result (walk.new.file.spare + length walk.new.file.bytes ≡ walk.old.file.spare + length walk.old.file.bytes) }
{
    let op = &script.ops()[place];
    if !is_command(op) {
        return Ok(());
    }
    let position = walk.commands;
    let reply = reply_at(replies, position);
    let command = AnsweredCommand {
        place,
        position,
        op,
        reply,
    };
    push_line(report, walk, script, &command)?;
    walk.commands = position + 1;
    Ok(())
}

// Adds the lines of all commands. The tree is taken through them only as far as the last accepted read.
fn push_all(
    alloc: Global,
    report: &mut GrowingText,
    script: &PairScript,
    replies: &[Reply],
) -> Result<(), NoMemory>
    requires playable { IsPlayable script.now }
    requires answered { length replies.now ≡ length (commands_of script.now) }
    ensures { OnOk result (report.new ≡ report.old ++ lines_before script.now replies.now (length script.now.ops)) }
{
    let file = TextBuf::with_room(alloc, TEXT_MAX)?;
    let replay = Replay::create(alloc, script)?;
    let mut walk = CommandWalk {
        replay,
        commands: 0,
        file,
    };
    for place in 0..script.ops().len() {
        push_next(report, &mut walk, script, replies, place)?;
    }
    Ok(())
}

/// Adds the lines of the commands, with what accepted reads gave, but not to a quiet report.
pub(crate) fn push_commands(
    alloc: Global,
    report: &mut GrowingText,
    script: &PairScript,
    replies: &[Reply],
    quiet: bool,
) -> Result<(), NoMemory>
    requires playable { IsPlayable script.now }
    requires answered { length replies.now ≡ length (commands_of script.now) }
    ensures { OnOk result (report.new ≡ report.old ++ commands_part script.now replies.now quiet) }
{
    if quiet {
        return Ok(());
    }
    push_all(alloc, report, script, replies)
}
