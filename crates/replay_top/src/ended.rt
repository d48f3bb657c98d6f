//! How a call ended.
ghost use Rattle.std.specs.Prelude.{◌≡◌};
ghost use Rattle.replay_top.specs.Endings.{exit_code, found_code};

use crate::outcome::Replayed;
use call_rim::{Ended, Status};

/// How a call of `top_replay` ended, and what was found.
#[derive(Drop)]
pub struct ReplayEnded {
    /// How it ended. It is Done whatever was found for the journals of an input.
    pub status: Status,
    /// What was found, and None where the input is bad, the source failed or memory ran out.
    pub outcome: Option<Replayed>,
}

/// The end of a call that found this.
pub(crate) fn replay_ended(ended: Ended<Replayed>) -> ReplayEnded
    ensures { result ≡ record { status = ended.status; outcome = ended.outcome } }
{
    ReplayEnded {
        status: ended.status,
        outcome: ended.outcome,
    }
}

// The exit status for what was found.
fn found_code(outcome: &Option<Replayed>) -> u8
    ensures { result ≡ found_code outcome.now }
{
    match outcome {
        Some(Replayed::Ordered(_) | Replayed::Reported(_)) => 0,
        _ => 6,
    }
}

impl ReplayEnded {
    /// The exit status of the program: that of the status, but for 6 where the journals are no run or no order was found.
    /// (This project's profile.)
    pub fn code(&self) -> u8
        ensures { result ≡ exit_code self.now.status self.now.outcome }
    {
        match self.status {
            Status::Done => found_code(&self.outcome),
            status => status.code(),
        }
    }
}
