//! What happened in a run on data and code masks.
ghost use Rattle.std.specs.Prelude.{◌≡◌, ◌<◌, length, map};
ghost use Rattle.pair_law.specs.Entries.{slice_in};
ghost use Rattle.run_law.specs.Entries.{entries_of};

use cache_core::SliceEntry;
use rc_base::Reply;
use std::marker::Model;

/// The journals of a run on data and code masks: the replies to the commands, in order, and the history of each domain's cache.
#[derive(Drop)]
pub struct CdpJournals {
    replies: Vec<Reply>,
    slices: Vec<Vec<SliceEntry>>,
}

impl Model for CdpJournals {
    ghost use Rattle.std.specs.Prelude.{map};
    ghost use Rattle.pair_law.specs.CdpRuns.{CdpJournalsValue};
    ghost use Rattle.run_law.specs.Entries.{entries_of};

    ghost Value = { CdpJournalsValue };

    ghost view = { λ j. record { replies = j.replies.items; slices = map entries_of j.slices.items } };
}

impl CdpJournals {
    /// The journals of these lists. It takes no memory.
    pub(crate) fn of(replies: Vec<Reply>, slices: Vec<Vec<SliceEntry>>) -> CdpJournals
        ensures replies { result.replies ≡ replies.items }
        ensures slices { result.slices ≡ map entries_of slices.items }
    {
        CdpJournals { replies, slices }
    }

    /// The replies to the commands of the script, in order.
    pub fn replies(&self) -> &[Reply]
        ensures { result.now ≡ self.now.replies }
    {
        &self.replies
    }

    /// What was entered in the caches: one list for each domain, in order.
    pub fn slices(&self) -> &[Vec<SliceEntry>]
        ensures { map entries_of result.now ≡ self.now.slices }
    {
        &self.slices
    }

    /// What was entered in the cache of a domain, in order. A data access of the group with serial number n has the owner 2n, and a
    /// code access 2n + 1 (this project's profile).
    pub fn slice(&self, domain: u8) -> &[SliceEntry]
        requires { domain < length self.now.slices }
        ensures { result.now ≡ slice_in self.now.slices domain }
    {
        &self.slices[usize::from(domain)]
    }
}
