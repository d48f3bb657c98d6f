//! How a call ended.
ghost use Rattle.std.specs.Prelude.{◌≡◌};

use call_rim::{Ended, Status};
use cdp_masks::CdpJournals;
use l2_level::LevelJournals;

/// How a call ended, and what happened in the run where a script was played.
#[derive(Drop)]
pub struct PairEnded<J> {
    /// How it ended.
    pub status: Status,
    /// The journals of the run, and None where nothing was played or memory ran out.
    pub journals: Option<J>,
}

/// How a call of `top_cdp` ended.
pub type CdpEnded = PairEnded<CdpJournals>;

/// How a call of `top_l2` ended.
pub type LevelEnded = PairEnded<LevelJournals>;

/// The end of a call whose outcome is the journals of a run.
pub(crate) fn pair_ended<J: Drop>(ended: Ended<J>) -> PairEnded<J>
    ensures status { result.status ≡ ended.status }
    ensures journals { result.journals ≡ ended.outcome }
{
    PairEnded {
        status: ended.status,
        journals: ended.outcome,
    }
}
