//! The counts of lines that a command needs.
ghost use Rattle.std.specs.Prelude.{◌≡◌, ◌+◌, ◌≤◌, ◌<◌, [], ◌^◌, Some, length, slice_get};
ghost use Rattle.std.specs.List.{flat_map};
ghost use Rattle.tree_core.specs.RmidLists.{counts_in};

use crate::rmid_list::RmidList;
use std::marker::Model;

/// The counts of lines that a command needs, in order: of each of some RMIDs, one in each of some domains, rising.
/// Contracts see the list of their domains and RMIDs.
#[derive(Drop)]
pub struct Counts {
    rmids: RmidList,
    first: u8,
    domains: u8,
}

impl Model for Counts {
    ghost use Rattle.std.specs.Prelude.{ℕ, List, ◌+◌, ◌≤◌, ◌<◌, ◌^◌};
    ghost use Rattle.std.specs.List.{flat_map};
    ghost use Rattle.tree_core.specs.RmidLists.{counts_in};

    ghost Value = { List (ℕ × ℕ) };

    ghost view = { λ c. flat_map (counts_in c.first c.domains) c.rmids.items };

    ghost invariant = { λ c. (0 < c.domains) × (c.first + c.domains ≤ 2 ^ 8) };
}

impl Counts {
    /// No counts.
    pub(crate) fn none() -> Counts
        ensures { result ≡ [] }
    {
        Counts {
            rmids: RmidList::new(),
            first: 0,
            domains: 1,
        }
    }

    /// The counts of these RMIDs in so many domains, from a first one on.
    pub(crate) fn of(rmids: RmidList, first: u8, domains: u8) -> Counts
        requires some { 0 < domains }
        requires fits { first + domains ≤ 2 ^ 8 }
        ensures { result ≡ flat_map (counts_in first domains) rmids.items }
    {
        Counts {
            rmids,
            first,
            domains,
        }
    }

    /// How many counts there are.
    pub fn len(&self) -> u32
        ensures { result ≡ length self.now }
    {
        self.rmids.len() as u32 * u32::from(self.domains)
    }

    /// The domain and the RMID of the i-th count, from 0.
    pub fn at(&self, i: u32) -> (u8, u16)
        requires { i < length self.now }
        ensures { slice_get self.now i ≡ Some result }
    {
        let domains = u32::from(self.domains);
        let rmid = self.rmids[(i / domains) as usize];
        (self.first + (i % domains) as u8, rmid)
    }
}
