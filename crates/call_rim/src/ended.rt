//! How a call ended, with what it hands back.
ghost use Rattle.std.specs.Prelude.{◌≡◌, Some, None};

use crate::status::Status;

/// How a call ended, and what its program found.
#[derive(Drop)]
pub struct Ended<T: Drop> {
    /// How it ended.
    pub status: Status,
    /// What the program hands back beside its report, and None where there is no report or memory ran out.
    pub outcome: Option<T>,
}

/// An end with an outcome.
pub(crate) fn with_outcome<T: Drop>(status: Status, outcome: T) -> Ended<T>
    ensures { result ≡ record { status = status; outcome = Some outcome } }
{
    Ended {
        status,
        outcome: Some(outcome),
    }
}

/// An end with no outcome. It is also for a top call whose program starts threads, as `read_all` is.
pub fn without_outcome<T: Drop>(status: Status) -> Ended<T>
    ensures { result ≡ record { status = status; outcome = None } }
{
    Ended {
        status,
        outcome: None,
    }
}
