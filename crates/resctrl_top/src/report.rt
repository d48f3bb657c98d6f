//! The report that the flags of a form ask for.
ghost use Rattle.std.specs.Prelude.{◌≡◌, ◌++◌, IfOk, OnOk, length};
ghost use Rattle.resctrl_top.specs.Halves.{IsWithWindows, output_head, output_tail};
ghost use Rattle.resctrl_top.specs.Outputs.{IsOutput, output_of};
ghost use Rattle.run_law.specs.Runs.{IsRun};
ghost use Rattle.run_replay.specs.Playbacks.{HasTakenBefore};
ghost use Rattle.script_ops.specs.Values.{IsLawful};

use num_text::GrowingText;
use rc_base::NoMemory;
use report_pieces::Flags;
use run_counts::Window;
use run_law::Journals;
use run_replay::{Playback, Run};
use run_windows::{FollowedReplay, has_exclusive_write, windows, windows_after};
use script_ops::Script;
use std::alloc::Global;

// The first part of the report, in JSON, or in lines.
fn head<R: Playback>(
    alloc: Global,
    run: &Run<'_>,
    flags: Flags,
    replay: &mut R,
) -> Result<GrowingText, NoMemory>
    requires run { IsRun run.now.script.now run.now.journals.now }
    requires taken { HasTakenBefore run.now.script.now run.now.journals.now.tree 0 (R.played replay.old) }
    requires notes { R.notes run.now.script.now run.now.journals.now replay.old }
    ensures text { IfOk result (λ head. head ≡ output_head run.now.script.now run.now.journals.now flags) }
    ensures taken { OnOk result (HasTakenBefore run.now.script.now run.now.journals.now.tree (length run.now.journals.now.tree) (R.played replay.new)) }
    ensures notes { OnOk result (R.notes run.now.script.now run.now.journals.now replay.new) }
{
    if flags.json {
        json_report::head(alloc, run, flags, replay)
    } else {
        report_text::head(alloc, run, flags, replay)
    }
}

// A report with the rest after its first part.
fn finish(
    alloc: Global,
    head: GrowingText,
    run: &Run<'_>,
    flags: Flags,
    windows: &[Window],
) -> Result<Vec<u8>, NoMemory>
    requires { IsRun run.now.script.now run.now.journals.now }
    ensures { IfOk result (λ text. text.items ≡ head ++ output_tail run.now.script.now run.now.journals.now flags windows.now) }
{
    if flags.json {
        json_report::finish(alloc, head, run, flags, windows)
    } else {
        report_text::finish(alloc, head, run, flags, windows)
    }
}

// The report with its windows. The tree is taken through its history once for both: what is left of it after the last text is
// played for the windows.
fn with_followed(
    alloc: Global,
    script: &Script,
    journals: &Journals,
    flags: Flags,
) -> Result<Vec<u8>, NoMemory>
    requires lawful { IsLawful script.now }
    requires run { IsRun script.now journals.now }
    ensures { IfOk result (λ text. IsWithWindows script.now journals.now flags text.items) }
{
    let run = Run { script, journals };
    let mut followed = FollowedReplay::create(alloc, script, journals)?;
    let head = head(alloc, &run, flags, &mut followed)?;
    let windows = windows_after(alloc, &run, followed)?;
    let text = finish(alloc, head, &run, flags, &windows)?;
    Ok(text)
}

// The report with these windows, in JSON, or in lines.
fn with_given(
    alloc: Global,
    script: &Script,
    journals: &Journals,
    flags: Flags,
    windows: &[Window],
) -> Result<Vec<u8>, NoMemory>
    requires { IsRun script.now journals.now }
    ensures { IfOk result (λ text. text.items ≡ output_of script.now journals.now flags windows.now) }
{
    if flags.json {
        json_report::text(alloc, script, journals, flags, windows)
    } else {
        report_text::text(alloc, script, journals, flags, windows)
    }
}

// The report with its windows, of a run in which no group is ever exclusive: so nothing is followed while the texts are played.
fn with_none(
    alloc: Global,
    script: &Script,
    journals: &Journals,
    flags: Flags,
) -> Result<Vec<u8>, NoMemory>
    requires lawful { IsLawful script.now }
    requires run { IsRun script.now journals.now }
    ensures { IfOk result (λ text. IsWithWindows script.now journals.now flags text.items) }
{
    let windows = windows(alloc, script, journals)?;
    let text = with_given(alloc, script, journals, flags, &windows)?;
    Ok(text)
}

// The report with its windows.
fn with_windows(
    alloc: Global,
    script: &Script,
    journals: &Journals,
    flags: Flags,
) -> Result<Vec<u8>, NoMemory>
    requires lawful { IsLawful script.now }
    requires run { IsRun script.now journals.now }
    ensures { IfOk result (λ text. IsWithWindows script.now journals.now flags text.items) }
{
    if has_exclusive_write(script, journals) {
        with_followed(alloc, script, journals, flags)
    } else {
        with_none(alloc, script, journals, flags)
    }
}

/// The report of a run, whoever made its journals: in JSON or in lines, with the windows of these journals, as the flags ask for
/// them. The tree is taken through its history once more at most, for the texts of accepted reads and lists and for the windows.
pub fn report(
    alloc: Global,
    script: &Script,
    journals: &Journals,
    flags: Flags,
) -> Result<Vec<u8>, NoMemory>
    requires lawful { IsLawful script.now }
    requires run { IsRun script.now journals.now }
    ensures { IfOk result (λ text. IsOutput script.now journals.now flags text.items) }
{
    let asked = flags.windows;
    if asked {
        with_windows(alloc, script, journals, flags)
    } else {
        with_given(alloc, script, journals, flags, &[])
    }
}
