//! How a call ended.
ghost use Rattle.std.specs.Prelude.{◌≡◌, None, Some};
ghost use Rattle.check_top.specs.Statuses.{ended_by, status_by};

use crate::checked::Checked;
use crate::status::{CheckStatus, status_of, status_with};
use call_rim::{Ended, Status};
use journal_check::Verdict;
use run_law::Journals;

/// How a call ended, and the journals that were exported or checked.
#[derive(Drop)]
pub struct CheckEnded {
    /// How it ended.
    pub status: CheckStatus,
    /// The journals of an export, or those that the input of a check holds; None where the input is bad, the source failed or
    /// memory ran out.
    pub journals: Option<Journals>,
}

// The end of a call that found these journals and this verdict.
fn with_verdict(status: Status, found: Checked) -> CheckEnded
    ensures { result ≡ ended_by status (Some found) }
{
    let Checked { journals, verdict } = found;
    CheckEnded {
        status: status_with(status, verdict),
        journals: Some(journals),
    }
}

// An end with no journals.
fn without_journals(status: Status) -> CheckEnded
    ensures { result ≡ ended_by status None }
{
    CheckEnded {
        status: status_of(status),
        journals: None,
    }
}

/// The end of a call of the rim.
pub(crate) fn checked(ended: Ended<Checked>) -> CheckEnded
    ensures { result ≡ ended_by ended.status ended.outcome }
{
    let Ended { status, outcome } = ended;
    match outcome {
        Some(found) => with_verdict(status, found),
        None => without_journals(status),
    }
}

/// The status of a call of the rim that hands back a verdict alone.
pub(crate) fn judged(ended: Ended<Verdict>) -> CheckStatus
    ensures { result ≡ status_by ended.status ended.outcome }
{
    let Ended { status, outcome } = ended;
    match outcome {
        Some(verdict) => status_with(status, verdict),
        None => status_of(status),
    }
}
