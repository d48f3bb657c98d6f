//! How a call ends.
ghost use Rattle.std.specs.Prelude.{◌≡◌, None, Some};
ghost use Rattle.check_top.specs.Statuses.{code_of, status_by};

use call_rim::Status;
use journal_check::Verdict;

/// How a call ends. The number of each is the program's exit status (this project's profile).
#[derive(Clone, Copy, Debug, PartialEq, Eq)]
pub enum CheckStatus {
    /// The script was exported with its journals, or the journals are a run of the script; the sink took all that is written, and
    /// holds none of it back.
    Done,
    /// The input is bad; the sink took the line that says so, and holds none of it back.
    Refused,
    /// The command line is not valid; the sink took the usage line, and holds none of it back.
    Usage,
    /// The source failed; nothing was written.
    ReadFault,
    /// The sink failed, and took a beginning of what was due.
    WriteFault,
    /// Memory ran out; nothing was written.
    NoMemory,
    /// The journals are no run of the script; the sink took the line that says so, and holds none of it back.
    No,
}

impl CheckStatus {
    /// The exit status of the program, from 0 to 6.
    pub fn code(self) -> u8
        ensures { result ≡ code_of self }
    {
        self as u8
    }
}

/// The status of a call that has no verdict.
pub(crate) fn status_of(status: Status) -> CheckStatus
    ensures { result ≡ status_by status None }
{
    match status {
        Status::Done => CheckStatus::Done,
        Status::Refused => CheckStatus::Refused,
        Status::Usage => CheckStatus::Usage,
        Status::ReadFault => CheckStatus::ReadFault,
        Status::WriteFault => CheckStatus::WriteFault,
        Status::NoMemory => CheckStatus::NoMemory,
    }
}

/// The status of a call that has this verdict.
pub(crate) fn status_with(status: Status, verdict: Verdict) -> CheckStatus
    ensures { result ≡ status_by status (Some verdict) }
{
    match (status, verdict) {
        (Status::Done, Verdict::No { .. }) => CheckStatus::No,
        _ => status_of(status),
    }
}
