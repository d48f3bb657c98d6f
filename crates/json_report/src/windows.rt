//! The values of windows of isolation.
ghost use Rattle.std.specs.Prelude.{◌≡◌, ◌++◌, OnOk, false, map, true};
ghost use Rattle.json_report.specs.Pieces.{items_told, members_told};
ghost use Rattle.json_report.specs.WindowValues.{windows_part};
ghost use Rattle.json_report.specs.Values.{array_of};
ghost use Rattle.json_report.specs.WindowValues.{first_members, last_members, window_value};
ghost use Rattle.serde_json.specs.Written.{comma_if, compact_text};

use crate::members::{push_comma, push_key, push_number};
use num_text::GrowingText;
use rc_base::NoMemory;
use run_counts::Window;

// Adds the members of a window up to `from`.
fn push_first_members(report: &mut GrowingText, window: &Window) -> Result<(), NoMemory>
    ensures { OnOk result (report.new ≡ report.old ++ members_told false (first_members window.now)) }
{
    push_number(report, false, "accesses", window.accesses)?;
    push_number(report, true, "covered", window.covered)?;
    push_number(report, true, "covered_hits", window.covered_hits)?;
    push_number(report, true, "domain", u64::from(window.domain))?;
    push_number(report, true, "from", u64::from(window.from))
}

// Adds the members of a window after `from`.
fn push_last_members(report: &mut GrowingText, window: &Window) -> Result<(), NoMemory>
    ensures { OnOk result (report.new ≡ report.old ++ members_told true (last_members window.now)) }
{
    push_number(report, true, "gid", u64::from(window.gid.0))?;
    push_number(report, true, "hits", window.hits)?;
    push_number(report, true, "private", window.private)?;
    push_number(report, true, "slice", u64::from(window.slice))?;
    push_number(report, true, "ways", u64::from(window.ways))
}

// Adds a window.
fn push_window(report: &mut GrowingText, later: bool, window: &Window) -> Result<(), NoMemory>
    ensures { OnOk result (report.new ≡ report.old ++ (comma_if later ++ compact_text (window_value window.now))) }
{
    push_comma(report, later)?;
    report.push(b"{".as_slice())?;
    push_first_members(report, window)?;
    push_last_members(report, window)?;
    report.push(b"}".as_slice())
}

// Adds windows.
fn push_items(report: &mut GrowingText, windows: &[Window]) -> Result<(), NoMemory>
    ensures { OnOk result (report.new ≡ report.old ++ items_told false (map window_value windows.now)) }
{
    for (i, window) in windows.iter().enumerate() {
        push_window(report, i > 0, window)?;
    }
    Ok(())
}

// Adds a list of windows.
fn push_list(report: &mut GrowingText, windows: &[Window]) -> Result<(), NoMemory>
    ensures { OnOk result (report.new ≡ report.old ++ compact_text (array_of (map window_value windows.now))) }
{
    report.push(b"[".as_slice())?;
    push_items(report, windows)?;
    report.push(b"]".as_slice())
}

/// Adds the windows of isolation, where they are asked for.
pub fn push_windows_part(
    report: &mut GrowingText,
    asked: bool,
    windows: &[Window],
) -> Result<(), NoMemory>
    ensures { OnOk result (report.new ≡ report.old ++ members_told true (windows_part asked windows.now)) }
{
    if !asked {
        return Ok(());
    }
    push_key(report, true, "windows")?;
    push_list(report, windows)
}
