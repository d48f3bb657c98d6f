//! Resource monitoring ids, and which of them are taken or in limbo.
ghost use Rattle.std.specs.Prelude.{◌≡◌, ◌<◌, ◌≤◌, ◌≢◌, [], ◌∷◌, ◌↔◌, length, slice_index, OnErr, IfOk, IsTrue, Err};
ghost use Rattle.hw_ids.specs.Ids.{contains, with_id};
ghost use Rattle.hw_ids.specs.MonitoringIds.{ArePart, IsLowestFree, NoneFree, above, after_free};

use crate::uses::{Use, in_limbo, lowest_free, nth_in_limbo, release, use_after};
use std::marker::Model;

/// The greatest number of RMIDs that a machine may have (this project's profile).
pub const MAX_RMIDS: usize = 256;

/// Why no RMID could be taken. Nothing has changed.
#[derive(Clone, Copy, Debug, PartialEq, Eq)]
pub enum NoRmid {
    /// None is free, and none is in limbo.
    Spent,
    /// None is free, but some are in limbo and may become free.
    Limbo,
}

/// The resource monitoring ids (RMIDs) of a machine, numbered from 0, which of them are taken, and which are in limbo:
/// given up, while the caches still hold more than the threshold of their lines (kernel documentation, "max_threshold_occupancy").
/// RMID 0 is the default group's and is never freed.
#[derive(Debug, Drop)]
pub struct Rmids {
    uses: [Use; 256],
    count: u16,
    threshold: u64,
    // Why none could be taken last, where none was given up or tested since.
    refused: Option<NoRmid>,
}

impl Model for Rmids {
    ghost use Rattle.std.specs.Prelude.{◌≤◌, IfSome, length, take};
    ghost use Rattle.hw_ids.specs.Ids.{places};
    ghost use Rattle.hw_ids.specs.MonitoringIds.{IsRefused, MonitoringIds};
    ghost use Rattle.hw_ids.specs.Uses.{is_limbo, is_taken};

    ghost Value = { MonitoringIds };

    ghost view = { λ r. record {
      count = r.count;
      taken = places is_taken 0 (take r.count r.uses);
      limbo = places is_limbo 0 (take r.count r.uses);
      threshold = r.threshold;
    } };

    ghost invariant = { λ r. (r.count ≤ 256) × (r.count ≤ length r.uses) × IfSome r.refused (IsRefused (record {
      count = r.count;
      taken = places is_taken 0 (take r.count r.uses);
      limbo = places is_limbo 0 (take r.count r.uses);
      threshold = r.threshold;
    })) };
}

impl Rmids {
    /// `n` RMIDs, from 1 to 256, of which only RMID 0 is taken, and the threshold in bytes.
    pub fn create(n: u16, threshold: u64) -> Rmids
        requires some { 0 < n }
        requires fits { n ≤ MAX_RMIDS }
        ensures { result ≡ record { count = n; taken = 0 ∷ []; limbo = []; threshold = threshold } }
    {
        let mut uses = [Use::Free; 256];
        uses[0] = Use::Taken;
        Rmids {
            uses,
            count: n,
            threshold,
            refused: None,
        }
    }

    /// Takes the lowest RMID that is free. Where none could be taken, it is not looked for again until one is given up or tested.
    pub fn take(&mut self) -> Result<u16, NoRmid>
        ensures lowest { IfOk result (IsLowestFree self.old) }
        ensures taken { IfOk result (λ rmid. self.new ≡ record self.old { taken = with_id rmid self.old.taken }) }

        ensures spent { (result ≡ Err NoRmid.Spent) ↔ (NoneFree self.old × (self.old.limbo ≡ [])) }
        ensures limbo { (result ≡ Err NoRmid.Limbo) ↔ (NoneFree self.old × (self.old.limbo ≢ [])) }
        ensures unchanged { OnErr result (self.new ≡ self.old) }
    {
        if let Some(why) = self.refused {
            return Err(why);
        }
        let found = self.search();
        if let Err(why) = found {
            self.refused = Some(why);
        }
        found
    }

    // Takes the lowest RMID that is free, looking for it.
    fn search(&mut self) -> Result<u16, NoRmid>
        ensures lowest { IfOk result (IsLowestFree self.old) }
        ensures taken { IfOk result (λ rmid. self.new ≡ record self.old { taken = with_id rmid self.old.taken }) }

        ensures spent { (result ≡ Err NoRmid.Spent) ↔ (NoneFree self.old × (self.old.limbo ≡ [])) }
        ensures limbo { (result ≡ Err NoRmid.Limbo) ↔ (NoneFree self.old × (self.old.limbo ≢ [])) }
        ensures unchanged { OnErr result (self.new ≡ self.old) }
    {
        match lowest_free(&self.uses[..self.count as usize]) {
            Some(rmid) => {
                self.uses[rmid] = Use::Taken;
                self.refused = None;
                Ok(rmid as u16)
            }
            None if self.limbo_len() == 0 => Err(NoRmid::Spent),
            None => Err(NoRmid::Limbo),
        }
    }

    /// Gives an RMID up. The fullest cache holds this many bytes of its lines.
    pub fn free(&mut self, rmid: u16, bytes: u64)
        requires taken { IsTrue (contains rmid self.old.taken) }
        requires not_default { rmid ≢ 0 }
        ensures { self.new ≡ after_free self.old rmid bytes }
    {
        self.uses[rmid as usize] = use_after(self.threshold, bytes);
        self.refused = None;
    }

    /// Tests each RMID in limbo, in rising order, by how many bytes of its lines the fullest cache holds. It becomes free where they are at most the threshold.
    pub fn tick(&mut self, bytes: &[u64])
        requires { length bytes.now ≡ length self.old.limbo }
        ensures { self.new ≡ record self.old { limbo = above self.old.threshold self.old.limbo bytes.now } }
    {
        let count = self.count as usize;
        release(&mut self.uses, count, self.threshold, bytes);
        self.refused = None;
    }

    /// How many RMIDs are in limbo.
    pub fn limbo_len(&self) -> u16
        ensures number { result ≡ length self.now.limbo }

        // Each id is taken, in limbo or free, and only one of these.
        ensures parts { ArePart self.now }
    {
        in_limbo(&self.uses[..self.count as usize]) as u16
    }

    /// The RMID at this place among those in limbo, in rising order.
    pub fn limbo_at(&self, i: u16) -> u16
        requires { i < length self.now.limbo }
        ensures { result ≡ slice_index self.now.limbo i }
    {
        nth_in_limbo(&self.uses[..self.count as usize], i)
    }

    /// The threshold in bytes.
    pub fn threshold(&self) -> u64
        ensures { result ≡ self.now.threshold }
    {
        self.threshold
    }

    /// Changes the threshold. RMIDs in limbo stay there until the next tick.
    pub fn set_threshold(&mut self, bytes: u64)
        ensures { self.new ≡ record self.old { threshold = bytes } }
    {
        self.threshold = bytes;
    }
}
