//! The JSON report of a run.
ghost use Rattle.std.specs.Prelude.{◌≡◌, ◌++◌, IfOk, OnOk, length};
ghost use Rattle.json_report.specs.Halves.{head_of, tail_of};
ghost use Rattle.json_report.specs.Reporting.{json_of};
ghost use Rattle.run_law.specs.Runs.{IsRun};
ghost use Rattle.run_replay.specs.Playbacks.{HasTakenBefore};

use crate::commands::push_commands_part;
use crate::json_groups::push_groups;
use crate::{push_domains, push_journal_part, push_total, push_windows_part};
use num_text::GrowingText;
use rc_base::NoMemory;
use report_pieces::Flags;
use run_counts::{RunCounts, Window};
use run_law::Journals;
use run_replay::{Playback, Replay, Run, made_groups};
use script_ops::Script;
use std::alloc::Global;

/// The first part of the report of a run in JSON: it opens the object, and has the commands, unless it is to be quiet. The tree
/// that is lent is taken as far as the last accepted read or list, and nowhere for a quiet report.
pub fn head<R: Playback>(
    alloc: Global,
    run: &Run<'_>,
    flags: Flags,
    replay: &mut R,
) -> Result<GrowingText, NoMemory>
    requires run { IsRun run.now.script.now run.now.journals.now }
    requires taken { HasTakenBefore run.now.script.now run.now.journals.now.tree 0 (R.played replay.old) }
    requires notes { R.notes run.now.script.now run.now.journals.now replay.old }
    ensures text { IfOk result (λ report. report ≡ head_of run.now.script.now run.now.journals.now flags) }
    ensures taken { OnOk result (HasTakenBefore run.now.script.now run.now.journals.now.tree (length run.now.journals.now.tree) (R.played replay.new)) }
    ensures notes { OnOk result (R.notes run.now.script.now run.now.journals.now replay.new) }
{
    let mut report = GrowingText::create(alloc)?;
    report.push(b"{".as_slice())?;
    push_commands_part(alloc, &mut report, flags.quiet, run, replay)?;
    Ok(report)
}

// The same by a tree of its own.
fn own_head(alloc: Global, run: &Run<'_>, flags: Flags) -> Result<GrowingText, NoMemory>
    requires { IsRun run.now.script.now run.now.journals.now }
    ensures { IfOk result (λ report. report ≡ head_of run.now.script.now run.now.journals.now flags) }
{
    let mut replay = Replay::create(alloc, run.script, run.journals)?;
    head(alloc, run, flags, &mut replay)
}

// Adds all members after the commands, and closes the object.
fn push_tail(
    alloc: Global,
    report: &mut GrowingText,
    run: &Run<'_>,
    flags: Flags,
    windows: &[Window],
) -> Result<(), NoMemory>
    requires { IsRun run.now.script.now run.now.journals.now }
    ensures { OnOk result (report.new ≡ report.old ++ tail_of run.now.script.now run.now.journals.now flags windows.now) }
{
    let made = made_groups(alloc, run.script, run.journals)?;
    let counts = RunCounts::of(alloc, run.script, run.journals)?;
    push_domains(alloc, report, !flags.quiet, run, &counts)?;
    push_groups(alloc, report, run, &made, counts.tally())?;
    push_journal_part(report, flags.journal, run.script, run.journals)?;
    push_total(alloc, report, run.script, run.journals, counts.tally())?;
    push_windows_part(report, flags.windows, windows)?;
    report.push(b"}\n".as_slice())
}

/// A report in JSON with its other members after its first part: the domains, the groups, the entries of each slice, where the
/// flags ask for the journal, the total, and these windows, where they ask for windows. Every number is counted from the journals.
pub fn finish(
    alloc: Global,
    mut head: GrowingText,
    run: &Run<'_>,
    flags: Flags,
    windows: &[Window],
) -> Result<Vec<u8>, NoMemory>
    requires { IsRun run.now.script.now run.now.journals.now }
    ensures { IfOk result (λ bytes. bytes.items ≡ head ++ tail_of run.now.script.now run.now.journals.now flags windows.now) }
{
    push_tail(alloc, &mut head, run, flags, windows)?;
    Ok(head.into_bytes())
}

/// The report of a run in JSON (this project's profile; RFC 8259): one object in compact text with a newline, whose keys, and
/// those of every object in it, are in byte order. It says what the text report says: the commands, unless it is to be quiet;
/// the entries of each slice, where the flags ask for the journal; these windows, where they ask for windows; the groups, the
/// domains and the total. Every number is counted from the journals, and every string has the bytes of the text report, those
/// below 32, quotes and backslashes escaped. The flag `json` changes nothing here.
pub fn text(
    alloc: Global,
    script: &Script,
    journals: &Journals,
    flags: Flags,
    windows: &[Window],
) -> Result<Vec<u8>, NoMemory>
    requires { IsRun script.now journals.now }
    ensures { IfOk result (λ bytes. bytes.items ≡ json_of script.now journals.now flags windows.now) }
{
    let run = Run { script, journals };
    let head = own_head(alloc, &run, flags)?;
    finish(alloc, head, &run, flags, windows)
}
