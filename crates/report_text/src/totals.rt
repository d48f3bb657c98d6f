//! The last line: all commands and all accesses.
ghost use Rattle.std.specs.Prelude.{◌≡◌, ◌++◌, OnOk, map};
ghost use Rattle.machine.specs.Slices.{slice_count};
ghost use Rattle.cache_core.specs.Whats.{is_access};
ghost use Rattle.run_counts.specs.Tallies.{IsTallyOf};
ghost use Rattle.run_law.specs.Entries.{entry_value};
ghost use Rattle.report_text.specs.Counts.{counts_text};
ghost use Rattle.report_text.specs.Totals.{commands_count, total_line};

use crate::counts::push_counts;
use num_text::GrowingText;
use rc_base::NoMemory;
use run_counts::{Tally, count_refused};
use run_law::{Journals, TreeEntry};
use script_ops::Script;

// Adds how many commands there were, and how many were refused.
fn push_commands_count(report: &mut GrowingText, tree: &[TreeEntry]) -> Result<(), NoMemory>
    ensures { OnOk result (report.new ≡ report.old ++ commands_count (map entry_value tree.now)) }
{
    report.push(b"total: commands ".as_slice())?;
    report.push_decimal(tree.len() as u64)?;
    report.push(b" refused ".as_slice())?;
    report.push_decimal(count_refused(tree))?;
    report.push(b" ".as_slice())
}

// Adds all accesses, hits and misses.
fn push_all_counts(
    report: &mut GrowingText,
    script: &Script,
    journals: &Journals,
    tally: &Tally,
) -> Result<(), NoMemory>
    requires { IsTallyOf journals.now (slice_count script.now.machine) tally.now }
    ensures { OnOk result (report.new ≡ report.old ++ counts_text script.now journals.now is_access) }
{
    push_counts(report, tally.all())
}

/// Adds the last line: how many commands there were and how many were refused, and all accesses as they were tallied, with their
/// hits and misses.
pub fn push_total(
    report: &mut GrowingText,
    script: &Script,
    journals: &Journals,
    tally: &Tally,
) -> Result<(), NoMemory>
    requires { IsTallyOf journals.now (slice_count script.now.machine) tally.now }
    ensures { OnOk result (report.new ≡ report.old ++ total_line script.now journals.now) }
{
    push_commands_count(report, journals.tree())?;
    push_all_counts(report, script, journals, tally)?;
    report.push(b"\n".as_slice())
}
