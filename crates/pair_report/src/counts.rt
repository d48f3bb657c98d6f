//! The text of counts of accesses, hits and misses, and the last line.
ghost use Rattle.std.specs.Prelude.{◌≡◌, ◌<◌, ◌++◌, OnOk, Some, count_by, length, slice_get};
ghost use Rattle.pair_report.specs.PairCounts.{counts_told, sides_told, total_line};
ghost use Rattle.run_counts.specs.Refusals.{is_refusal};

use num_text::GrowingText;
use rc_base::{NoMemory, Reply};
use run_counts::Counts;

// Adds counts of accesses.
fn push_counts(report: &mut GrowingText, counts: Counts) -> Result<(), NoMemory>
    ensures { OnOk result (report.new ≡ report.old ++ counts_told counts) }
{
    report.push_number(b"accesses ".as_slice(), counts.accesses)?;
    report.push_number(b" hits ".as_slice(), counts.hits)?;
    report.push_number(b" misses ".as_slice(), counts.misses)
}

/// Adds the counts of a group on its two sides, each after a word.
pub(crate) fn push_sides(
    report: &mut GrowingText,
    first: &[u8],
    one: Counts,
    second: &[u8],
    other: Counts,
) -> Result<(), NoMemory>
    ensures { OnOk result (report.new ≡ report.old ++ sides_told first.now one second.now other) }
{
    report.push(first)?;
    push_counts(report, one)?;
    report.push(second)?;
    push_counts(report, other)?;
    report.push(b"\n".as_slice())
}

// Whether the command was refused.
fn is_refusal(reply: &Reply) -> bool
    ensures { result ≡ is_refusal reply.now }
{
    matches!(reply, Reply::Refused { .. })
}

// How many commands were refused.
fn count_refused(replies: &[Reply]) -> u64
    ensures { result ≡ count_by is_refusal replies.now }
{
    replies.iter().filter(|reply| is_refusal(reply)).count() as u64
}

/// Adds the last line: how many commands there were, and how many were refused.
pub(crate) fn push_total(report: &mut GrowingText, replies: &[Reply]) -> Result<(), NoMemory>
    ensures { OnOk result (report.new ≡ report.old ++ total_line replies.now) }
{
    report.push_number(b"total: commands ".as_slice(), replies.len() as u64)?;
    report.push_number(b" refused ".as_slice(), count_refused(replies))?;
    report.push(b"\n".as_slice())
}

/// The reply to a command.
pub(crate) fn reply_at(replies: &[Reply], k: usize) -> Reply
    requires { k < length replies.now }
    ensures { slice_get replies.now k ≡ Some result }
{
    replies[k]
}
