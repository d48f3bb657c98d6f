//! The value of a command.
ghost use Rattle.std.specs.Prelude.{◌≡◌, ◌++◌, OnOk, true};
ghost use Rattle.json_report.specs.Pieces.{members_told};
ghost use Rattle.json_report.specs.Commands.{command_value, text_member};
ghost use Rattle.run_counts.specs.Touches.{TellsTouch};
ghost use Rattle.run_law.specs.Entries.{entry_value};
ghost use Rattle.run_replay.specs.CommandsOfRuns.{IsInRun, IsTreeBefore, given_at, state_at_command};
ghost use Rattle.serde_json.specs.Written.{compact_text};

use crate::{push_number, push_result_text, push_text_lines, push_words_text};
use num_text::GrowingText;
use rc_base::NoMemory;
use run_replay::{CommandAt, GivenTexts, Playback};
use std::alloc::Global;

// Adds the lines of what a command gave, where it was an accepted read or list.
fn push_given_lines<R: Playback>(
    report: &mut GrowingText,
    replay: &mut R,
    texts: &mut GivenTexts,
    command: &CommandAt<'_>,
) -> Result<(), NoMemory>
    requires entry { IsInRun command.now }
    requires taken { IsTreeBefore command.now (R.played replay.old) }
    requires notes { R.notes command.now.run.script.now command.now.run.journals.now replay.old }
    ensures text { OnOk result (report.new ≡ report.old ++ members_told true (text_member (given_at command.now))) }
    ensures taken { OnOk result (IsTreeBefore command.now (R.played replay.new)) }
    ensures notes { OnOk result (R.notes command.now.run.script.now command.now.run.journals.now replay.new) }
{
    if !texts.give(replay, command)? {
        return Ok(());
    }
    push_text_lines(report, texts.latest())
}

/// Adds the value of the command at a position.
pub(crate) fn push_command<R: Playback>(
    alloc: Global,
    report: &mut GrowingText,
    replay: &mut R,
    texts: &mut GivenTexts,
    command: &CommandAt<'_>,
    hit: Option<bool>,
) -> Result<(), NoMemory>
    requires entry { IsInRun command.now }
    requires taken { IsTreeBefore command.now (R.played replay.old) }
    requires notes { R.notes command.now.run.script.now command.now.run.journals.now replay.old }
    requires hit { TellsTouch command.now.run.journals.now (entry_value command.now.entry.now) hit }
    ensures text { OnOk result (report.new ≡ report.old ++ compact_text (command_value command.now.run.script.now command.now.run.journals.now (state_at_command command.now) command.now.position (entry_value command.now.entry.now))) }
    ensures taken { OnOk result (IsTreeBefore command.now (R.played replay.new)) }
    ensures notes { OnOk result (R.notes command.now.run.script.now command.now.run.journals.now replay.new) }
{
    let script = command.run.script;
    let entry = command.entry;
    let op = script.op(entry.thread, entry.op);
    report.push(b"{".as_slice())?;
    push_number(report, false, "at", command.position as u64)?;
    push_number(report, true, "op", u64::from(entry.op))?;
    push_result_text(alloc, report, command, &op, hit)?;
    push_given_lines(report, replay, texts, command)?;
    push_number(report, true, "thread", u64::from(entry.thread))?;
    push_words_text(alloc, report, script.names(), &op)?;
    report.push(b"}".as_slice())
}
