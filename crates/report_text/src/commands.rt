//! The lines of commands.
ghost use Rattle.std.specs.Prelude.{◌≡◌, ◌++◌, OnOk, length};
ghost use Rattle.report_text.specs.Commands.{command_line, command_lines, command_place, given_lines};
ghost use Rattle.run_counts.specs.Touches.{TellsTouch};
ghost use Rattle.run_law.specs.Entries.{entry_value};
ghost use Rattle.run_law.specs.Runs.{IsRun};
ghost use Rattle.run_replay.specs.CommandsOfRuns.{IsInRun, IsTreeBefore, given_at, state_at_command};
ghost use Rattle.run_replay.specs.Playbacks.{HasTakenBefore};
ghost use Rattle.tree_law.specs.State.{opening};

use num_text::GrowingText;
use rc_base::NoMemory;
use report_pieces::{push_barred, push_result, push_words};
use run_counts::Touches;
use run_law::TreeEntry;
use run_replay::{CommandAt, GivenTexts, Playback, Run};
use std::alloc::Global;

// Adds the position of an entry, its thread and its op's number.
#[tactic(auto, unfolding(crate::specs::Commands::command_place))]
fn push_place(report: &mut GrowingText, k: u64, entry: &TreeEntry) -> Result<(), NoMemory>
    ensures { OnOk result (report.new ≡ report.old ++ command_place k (entry_value entry.now)) }
{
    report.push_decimal(k)?;
    report.push_number(b" ".as_slice(), u64::from(entry.thread))?;
    report.push_number(b".".as_slice(), u64::from(entry.op))?;
    report.push(b" ".as_slice())
}

// Adds the lines of what a command gave, where it was an accepted read or list.
fn push_given_lines<R: Playback>(
    report: &mut GrowingText,
    replay: &mut R,
    texts: &mut GivenTexts,
    command: &CommandAt<'_>,
) -> Result<(), NoMemory>
    requires entry { IsInRun command.now }
    requires taken { IsTreeBefore command.now (R.played replay.old) }
    requires notes { R.notes command.now.run.script.now command.now.run.journals.now replay.old }
    ensures text { OnOk result (report.new ≡ report.old ++ given_lines (given_at command.now)) }
    ensures taken { OnOk result (IsTreeBefore command.now (R.played replay.new)) }
    ensures notes { OnOk result (R.notes command.now.run.script.now command.now.run.journals.now replay.new) }
{
    if !texts.give(replay, command)? {
        return Ok(());
    }
    push_barred(report, texts.latest())
}

// Adds the line of the command at a position, with what it gave.
fn push_command<R: Playback>(
    report: &mut GrowingText,
    replay: &mut R,
    texts: &mut GivenTexts,
    command: &CommandAt<'_>,
    hit: Option<bool>,
) -> Result<(), NoMemory>
    requires entry { IsInRun command.now }
    requires taken { IsTreeBefore command.now (R.played replay.old) }
    requires notes { R.notes command.now.run.script.now command.now.run.journals.now replay.old }
    requires hit { TellsTouch command.now.run.journals.now (entry_value command.now.entry.now) hit }
    ensures text { OnOk result (report.new ≡ report.old ++ command_line command.now.run.script.now command.now.run.journals.now (state_at_command command.now) command.now.position (entry_value command.now.entry.now)) }
    ensures taken { OnOk result (IsTreeBefore command.now (R.played replay.new)) }
    ensures notes { OnOk result (R.notes command.now.run.script.now command.now.run.journals.now replay.new) }
{
    let run = &command.run;
    let entry = command.entry;
    let op = run.script.op(entry.thread, entry.op);
    push_place(report, command.position as u64, entry)?;
    push_words(report, run.script.names(), &op)?;
    report.push(b": ".as_slice())?;
    push_result(report, run.journals, entry, &op, hit)?;
    report.push(b"\n".as_slice())?;
    push_given_lines(report, replay, texts, command)
}

/// Adds the lines of the commands, with what they gave. The tree that is lent is taken as far as the last text.
pub(crate) fn push_commands<R: Playback>(
    alloc: Global,
    report: &mut GrowingText,
    run: &Run<'_>,
    replay: &mut R,
) -> Result<(), NoMemory>
    requires run { IsRun run.now.script.now run.now.journals.now }
    requires taken { HasTakenBefore run.now.script.now run.now.journals.now.tree 0 (R.played replay.old) }
    requires notes { R.notes run.now.script.now run.now.journals.now replay.old }
    ensures text { OnOk result (report.new ≡ report.old ++ command_lines run.now.script.now run.now.journals.now (opening run.now.script.now.machine run.now.script.now.tasks) 0 run.now.journals.now.tree) }
    ensures taken { OnOk result (HasTakenBefore run.now.script.now run.now.journals.now.tree (length run.now.journals.now.tree) (R.played replay.new)) }
    ensures notes { OnOk result (R.notes run.now.script.now run.now.journals.now replay.new) }
{
    let tree = run.journals.tree();
    let touches = Touches::of(alloc, run.script, run.journals)?;
    let mut texts = GivenTexts::create(alloc)?;
    for (k, entry) in tree.iter().enumerate() {
        let hit = touches.hit(k);
        let command = CommandAt {
            run: *run,
            position: k,
            entry,
        };
        push_command(report, replay, &mut texts, &command, hit)?;
    }
    Ok(())
}
