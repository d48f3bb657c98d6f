//! What happened in a run on two levels.
ghost use Rattle.std.specs.Prelude.{◌≡◌, ◌<◌, length, map};
ghost use Rattle.pair_law.specs.Entries.{slice_in};
ghost use Rattle.run_law.specs.Entries.{entries_of};

use cache_core::SliceEntry;
use rc_base::Reply;
use std::marker::Model;

/// The journals of a run on two levels: the replies to the commands, in order, and the history of each L2 and of each L3 cache.
#[derive(Drop)]
pub struct LevelJournals {
    replies: Vec<Reply>,
    l2: Vec<Vec<SliceEntry>>,
    l3: Vec<Vec<SliceEntry>>,
}

impl Model for LevelJournals {
    ghost use Rattle.std.specs.Prelude.{map};
    ghost use Rattle.pair_law.specs.LevelRuns.{LevelJournalsValue};
    ghost use Rattle.run_law.specs.Entries.{entries_of};

    ghost Value = { LevelJournalsValue };

    ghost view = { λ j. record { replies = j.replies.items; l2 = map entries_of j.l2.items; l3 = map entries_of j.l3.items } };
}

impl LevelJournals {
    /// The journals of these lists. It takes no memory.
    pub(crate) fn of(
        replies: Vec<Reply>,
        l2: Vec<Vec<SliceEntry>>,
        l3: Vec<Vec<SliceEntry>>,
    ) -> LevelJournals
        ensures replies { result.replies ≡ replies.items }
        ensures l2 { result.l2 ≡ map entries_of l2.items }
        ensures l3 { result.l3 ≡ map entries_of l3.items }
    {
        LevelJournals { replies, l2, l3 }
    }

    /// The replies to the commands of the script, in order.
    pub fn replies(&self) -> &[Reply]
        ensures { result.now ≡ self.now.replies }
    {
        &self.replies
    }

    /// What was entered in the L2 caches: one list for each L2 domain, in order.
    pub fn l2_histories(&self) -> &[Vec<SliceEntry>]
        ensures { map entries_of result.now ≡ self.now.l2 }
    {
        &self.l2
    }

    /// What was entered in the L3 caches: one list for each L3 domain, in order.
    pub fn l3_histories(&self) -> &[Vec<SliceEntry>]
        ensures { map entries_of result.now ≡ self.now.l3 }
    {
        &self.l3
    }

    /// What was entered in the L2 cache of an L2 domain, in order.
    pub fn l2(&self, domain: u8) -> &[SliceEntry]
        requires { domain < length self.now.l2 }
        ensures { result.now ≡ slice_in self.now.l2 domain }
    {
        &self.l2[usize::from(domain)]
    }

    /// What was entered in the L3 cache of an L3 domain, in order.
    pub fn l3(&self, domain: u8) -> &[SliceEntry]
        requires { domain < length self.now.l3 }
        ensures { result.now ≡ slice_in self.now.l3 domain }
    {
        &self.l3[usize::from(domain)]
    }
}
