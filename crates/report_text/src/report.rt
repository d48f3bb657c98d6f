//! The report of a run.
ghost use Rattle.std.specs.Prelude.{◌≡◌, ◌++◌, IfOk, OnOk, length};
ghost use Rattle.report_text.specs.Halves.{head_of, tail_of};
ghost use Rattle.report_text.specs.Reporting.{commands_part, report_of};
ghost use Rattle.run_law.specs.Runs.{IsRun};
ghost use Rattle.run_replay.specs.Playbacks.{HasTakenBefore};

use crate::commands::push_commands;
use crate::text_groups::push_groups;
use crate::{push_domains, push_journal, push_total, push_windows};
use num_text::GrowingText;
use rc_base::NoMemory;
use report_pieces::Flags;
use run_counts::{RunCounts, Window};
use run_law::Journals;
use run_replay::{Playback, Replay, Run, made_groups};
use script_ops::Script;
use std::alloc::Global;

// Adds the lines of the commands, but not to a quiet report.
fn push_commands_part<R: Playback>(
    alloc: Global,
    report: &mut GrowingText,
    run: &Run<'_>,
    quiet: bool,
    replay: &mut R,
) -> Result<(), NoMemory>
    requires run { IsRun run.now.script.now run.now.journals.now }
    requires taken { HasTakenBefore run.now.script.now run.now.journals.now.tree 0 (R.played replay.old) }
    requires notes { R.notes run.now.script.now run.now.journals.now replay.old }
    ensures text { OnOk result (report.new ≡ report.old ++ commands_part run.now.script.now run.now.journals.now quiet) }
    ensures taken { OnOk result (HasTakenBefore run.now.script.now run.now.journals.now.tree (length run.now.journals.now.tree) (R.played replay.new)) }
    ensures notes { OnOk result (R.notes run.now.script.now run.now.journals.now replay.new) }
{
    if quiet {
        return Ok(());
    }
    push_commands(alloc, report, run, replay)
}

/// The first part of the report of a run (this project's profile): a line for each command, with what an accepted read gave,
/// unless it is to be quiet, and a line for each entry of each slice, where the flags ask for the journal. The tree that is lent
/// is taken as far as the last accepted read or list, and nowhere for a quiet report.
pub fn head<R: Playback>(
    alloc: Global,
    run: &Run<'_>,
    flags: Flags,
    replay: &mut R,
) -> Result<GrowingText, NoMemory>
    requires run { IsRun run.now.script.now run.now.journals.now }
    requires taken { HasTakenBefore run.now.script.now run.now.journals.now.tree 0 (R.played replay.old) }
    requires notes { R.notes run.now.script.now run.now.journals.now replay.old }
    ensures text { IfOk result (λ report. report ≡ head_of run.now.script.now run.now.journals.now flags) }
    ensures taken { OnOk result (HasTakenBefore run.now.script.now run.now.journals.now.tree (length run.now.journals.now.tree) (R.played replay.new)) }
    ensures notes { OnOk result (R.notes run.now.script.now run.now.journals.now replay.new) }
{
    let mut report = GrowingText::create(alloc)?;
    push_commands_part(alloc, &mut report, run, flags.quiet, replay)?;
    push_journal(&mut report, flags.journal, run.script, run.journals)?;
    Ok(report)
}

// The same by a tree of its own.
fn own_head(alloc: Global, run: &Run<'_>, flags: Flags) -> Result<GrowingText, NoMemory>
    requires run { IsRun run.now.script.now run.now.journals.now }
    ensures { IfOk result (λ report. report ≡ head_of run.now.script.now run.now.journals.now flags) }
{
    let mut replay = Replay::create(alloc, run.script, run.journals)?;
    head(alloc, run, flags, &mut replay)
}

// Adds all lines after the first part.
fn push_tail(
    alloc: Global,
    report: &mut GrowingText,
    run: &Run<'_>,
    flags: Flags,
    windows: &[Window],
) -> Result<(), NoMemory>
    requires run { IsRun run.now.script.now run.now.journals.now }
    ensures { OnOk result (report.new ≡ report.old ++ tail_of run.now.script.now run.now.journals.now flags windows.now) }
{
    push_windows(report, flags.windows, windows)?;
    let made = made_groups(alloc, run.script, run.journals)?;
    let counts = RunCounts::of(alloc, run.script, run.journals)?;
    push_groups(report, run.script, run.journals, &made, counts.tally())?;
    push_domains(report, run.script, run.journals, &counts)?;
    push_total(report, run.script, run.journals, counts.tally())
}

/// A report with its other lines after its first part: a line for each of these windows, where the flags ask for windows; a line
/// for each control group and for each domain, and a last line. Every number is counted from the journals.
pub fn finish(
    alloc: Global,
    mut head: GrowingText,
    run: &Run<'_>,
    flags: Flags,
    windows: &[Window],
) -> Result<Vec<u8>, NoMemory>
    requires run { IsRun run.now.script.now run.now.journals.now }
    ensures { IfOk result (λ bytes. bytes.items ≡ head ++ tail_of run.now.script.now run.now.journals.now flags windows.now) }
{
    push_tail(alloc, &mut head, run, flags, windows)?;
    Ok(head.into_bytes())
}

/// The report of a run (this project's profile): a line for each command, with what an accepted read gave, unless it is to be
/// quiet; a line for each entry of each slice, where the flags ask for the journal; a line for each of these windows, where they
/// ask for windows; a line for each control group and for each domain, and a last line. Every number is counted from the
/// journals. The flag `json` changes nothing here.
pub fn text(
    alloc: Global,
    script: &Script,
    journals: &Journals,
    flags: Flags,
    windows: &[Window],
) -> Result<Vec<u8>, NoMemory>
    requires run { IsRun script.now journals.now }
    ensures { IfOk result (λ bytes. bytes.items ≡ report_of script.now journals.now flags windows.now) }
{
    let run = Run { script, journals };
    let head = own_head(alloc, &run, flags)?;
    finish(alloc, head, &run, flags, windows)
}
