//! The text of counts of accesses, hits and misses.
ghost use Rattle.std.specs.Prelude.{◌≡◌, ◌++◌, OnOk};
ghost use Rattle.report_text.specs.Counts.{counts_told};

use num_text::GrowingText;
use rc_base::NoMemory;
use run_counts::Counts;

/// Adds counts of accesses.
pub(crate) fn push_counts(report: &mut GrowingText, counts: Counts) -> Result<(), NoMemory>
    ensures { OnOk result (report.new ≡ report.old ++ counts_told counts) }
{
    report.push(b"accesses ".as_slice())?;
    report.push_decimal(counts.accesses)?;
    report.push(b" hits ".as_slice())?;
    report.push_decimal(counts.hits)?;
    report.push(b" misses ".as_slice())?;
    report.push_decimal(counts.misses)
}
