//! The lines of windows of isolation.
ghost use Rattle.std.specs.Prelude.{◌≡◌, ◌++◌, OnOk};
ghost use Rattle.std.specs.List.{flat_map};
ghost use Rattle.report_text.specs.WindowLines.{windows_part};
ghost use Rattle.report_text.specs.WindowLines.{window_counts, window_line, window_place};

use num_text::GrowingText;
use rc_base::NoMemory;
use run_counts::Window;

// Adds where a window is.
fn push_place(report: &mut GrowingText, window: &Window) -> Result<(), NoMemory>
    ensures { OnOk result (report.new ≡ report.old ++ window_place window.now) }
{
    report.push_number(b"window ".as_slice(), u64::from(window.domain))?;
    report.push_number(b".".as_slice(), u64::from(window.slice))?;
    report.push_number(b" group ".as_slice(), u64::from(window.gid.0))?;
    report.push_number(b" ways ".as_slice(), u64::from(window.ways))?;
    report.push_number(b" from ".as_slice(), u64::from(window.from))?;
    report.push(b": ".as_slice())
}

// Adds what is counted in a window.
fn push_counts(report: &mut GrowingText, window: &Window) -> Result<(), NoMemory>
    ensures { OnOk result (report.new ≡ report.old ++ window_counts window.now) }
{
    report.push_number(b"accesses ".as_slice(), window.accesses)?;
    report.push_number(b" hits ".as_slice(), window.hits)?;
    report.push_number(b" covered ".as_slice(), window.covered)?;
    report.push_number(b" hits ".as_slice(), window.covered_hits)?;
    report.push_number(b" private ".as_slice(), window.private)
}

// Adds the line of a window.
#[tactic(auto, unfolding(crate::specs::WindowLines::window_line))]
fn push_window(report: &mut GrowingText, window: &Window) -> Result<(), NoMemory>
    ensures { OnOk result (report.new ≡ report.old ++ window_line window.now) }
{
    push_place(report, window)?;
    push_counts(report, window)?;
    report.push(b"\n".as_slice())
}

// Adds the lines of windows.
fn push_all(report: &mut GrowingText, windows: &[Window]) -> Result<(), NoMemory>
    ensures { OnOk result (report.new ≡ report.old ++ flat_map window_line windows.now) }
{
    for window in windows {
        push_window(report, window)?;
    }
    Ok(())
}

/// Adds the lines of windows of isolation, where they are asked for.
pub fn push_windows(
    report: &mut GrowingText,
    asked: bool,
    windows: &[Window],
) -> Result<(), NoMemory>
    ensures { OnOk result (report.new ≡ report.old ++ windows_part asked windows.now) }
{
    if !asked {
        return Ok(());
    }
    push_all(report, windows)
}
