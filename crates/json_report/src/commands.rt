//! The values of commands.
ghost use Rattle.std.specs.Prelude.{◌≡◌, ◌++◌, OnOk, false, length};
ghost use Rattle.json_report.specs.Commands.{command_values};
ghost use Rattle.json_report.specs.Pieces.{items_told, members_told};
ghost use Rattle.json_report.specs.Reporting.{commands_part};
ghost use Rattle.run_law.specs.Runs.{IsRun};
ghost use Rattle.run_replay.specs.Playbacks.{HasTakenBefore};
ghost use Rattle.tree_law.specs.State.{opening};

use crate::command_items::push_command;
use crate::{push_comma, push_key};
use num_text::GrowingText;
use rc_base::NoMemory;
use run_counts::Touches;
use run_replay::{CommandAt, GivenTexts, Playback, Run};
use std::alloc::Global;

// Adds the commands.
fn push_items<R: Playback>(
    alloc: Global,
    report: &mut GrowingText,
    run: &Run<'_>,
    replay: &mut R,
) -> Result<(), NoMemory>
    requires run { IsRun run.now.script.now run.now.journals.now }
    requires taken { HasTakenBefore run.now.script.now run.now.journals.now.tree 0 (R.played replay.old) }
    requires notes { R.notes run.now.script.now run.now.journals.now replay.old }
    ensures text { OnOk result (report.new ≡ report.old ++ items_told false (command_values run.now.script.now run.now.journals.now (opening run.now.script.now.machine run.now.script.now.tasks) 0 run.now.journals.now.tree)) }
    ensures taken { OnOk result (HasTakenBefore run.now.script.now run.now.journals.now.tree (length run.now.journals.now.tree) (R.played replay.new)) }
    ensures notes { OnOk result (R.notes run.now.script.now run.now.journals.now replay.new) }
{
    let tree = run.journals.tree();
    let touches = Touches::of(alloc, run.script, run.journals)?;
    let mut texts = GivenTexts::create(alloc)?;
    for (k, entry) in tree.iter().enumerate() {
        push_comma(report, k > 0)?;
        let hit = touches.hit(k);
        let command = CommandAt {
            run: *run,
            position: k,
            entry,
        };
        push_command(alloc, report, replay, &mut texts, &command, hit)?;
    }
    Ok(())
}

// Adds the member that is the list of commands, before all others.
fn push_list<R: Playback>(
    alloc: Global,
    report: &mut GrowingText,
    run: &Run<'_>,
    replay: &mut R,
) -> Result<(), NoMemory>
    requires run { IsRun run.now.script.now run.now.journals.now }
    requires taken { HasTakenBefore run.now.script.now run.now.journals.now.tree 0 (R.played replay.old) }
    requires notes { R.notes run.now.script.now run.now.journals.now replay.old }
    ensures text { OnOk result (report.new ≡ report.old ++ members_told false (commands_part run.now.script.now run.now.journals.now false)) }
    ensures taken { OnOk result (HasTakenBefore run.now.script.now run.now.journals.now.tree (length run.now.journals.now.tree) (R.played replay.new)) }
    ensures notes { OnOk result (R.notes run.now.script.now run.now.journals.now replay.new) }
{
    push_key(report, false, "commands")?;
    report.push(b"[".as_slice())?;
    push_items(alloc, report, run, replay)?;
    report.push(b"]".as_slice())
}

/// Adds the commands, but not to a quiet report. The tree that is lent is taken as far as the last text.
pub(crate) fn push_commands_part<R: Playback>(
    alloc: Global,
    report: &mut GrowingText,
    quiet: bool,
    run: &Run<'_>,
    replay: &mut R,
) -> Result<(), NoMemory>
    requires run { IsRun run.now.script.now run.now.journals.now }
    requires taken { HasTakenBefore run.now.script.now run.now.journals.now.tree 0 (R.played replay.old) }
    requires notes { R.notes run.now.script.now run.now.journals.now replay.old }
    ensures text { OnOk result (report.new ≡ report.old ++ members_told false (commands_part run.now.script.now run.now.journals.now quiet)) }
    ensures taken { OnOk result (HasTakenBefore run.now.script.now run.now.journals.now.tree (length run.now.journals.now.tree) (R.played replay.new)) }
    ensures notes { OnOk result (R.notes run.now.script.now run.now.journals.now replay.new) }
{
    if quiet {
        return Ok(());
    }
    push_list(alloc, report, run, replay)
}
