//! The lines of windows of a run with two levels.
ghost use Rattle.std.specs.Prelude.{◌≡◌, ◌++◌, OnOk};
ghost use Rattle.std.specs.List.{flat_map};
ghost use Rattle.pair_report.specs.LevelReport.{l2_counts, l3_counts, window_line, window_place};

use num_text::GrowingText;
use pair_windows::JointWindow;
use rc_base::NoMemory;

// Adds where a window is.
fn push_place(report: &mut GrowingText, window: &JointWindow) -> Result<(), NoMemory>
    ensures { OnOk result (report.new ≡ report.old ++ window_place window.now) }
{
    report.push_number(b"window ".as_slice(), u64::from(window.domain))?;
    report.push_number(b" group ".as_slice(), u64::from(window.gid.0))?;
    report.push_number(b" from ".as_slice(), u64::from(window.from))?;
    report.push(b": ".as_slice())
}

// Adds what the covered uses of a window did in the L2.
fn push_l2_counts(report: &mut GrowingText, window: &JointWindow) -> Result<(), NoMemory>
    ensures { OnOk result (report.new ≡ report.old ++ l2_counts window.now) }
{
    report.push_number(b"covered ".as_slice(), window.covered)?;
    report.push_number(b", l2 hits ".as_slice(), window.l2_hits)?;
    report.push_number(b" private ".as_slice(), window.l2_private)
}

// Adds what they did in the L3.
fn push_l3_counts(report: &mut GrowingText, window: &JointWindow) -> Result<(), NoMemory>
    ensures { OnOk result (report.new ≡ report.old ++ l3_counts window.now) }
{
    report.push_number(b", l3 accesses ".as_slice(), window.l3_accesses)?;
    report.push_number(b" hits ".as_slice(), window.l3_hits)?;
    report.push_number(b" private ".as_slice(), window.l3_private)
}

// Adds the line of a window.
#[tactic(auto, unfolding(crate::specs::LevelReport::window_line))]
fn push_window(report: &mut GrowingText, window: &JointWindow) -> Result<(), NoMemory>
    ensures { OnOk result (report.new ≡ report.old ++ window_line window.now) }
{
    push_place(report, window)?;
    push_l2_counts(report, window)?;
    push_l3_counts(report, window)?;
    report.push(b"\n".as_slice())
}

/// Adds the lines of these windows.
pub(crate) fn push_windows(
    report: &mut GrowingText,
    windows: &[JointWindow],
) -> Result<(), NoMemory>
    ensures { OnOk result (report.new ≡ report.old ++ flat_map window_line windows.now) }
{
    for window in windows {
        push_window(report, window)?;
    }
    Ok(())
}
