//! How a call ended.
ghost use Rattle.std.specs.Prelude.{◌≡◌};

use call_rim::Status;
use run_law::Journals;

/// How a call ended, and what happened in the run where there was one.
#[derive(Drop)]
pub struct Ended {
    /// How it ended.
    pub status: Status,
    /// The journals of the run, and None where nothing was played or memory ran out.
    pub journals: Option<Journals>,
}

/// The end of a call whose outcome is the journals of a run.
pub(crate) fn with_journals(ended: call_rim::Ended<Journals>) -> Ended
    ensures { result ≡ record { status = ended.status; journals = ended.outcome } }
{
    Ended {
        status: ended.status,
        journals: ended.outcome,
    }
}
