//! The counts that a command needs.
ghost use Rattle.std.specs.Prelude.{◌≡◌, ℕ, Contains, IfOk, Some, false, slice_get, IsTrue};
ghost use Rattle.journal_check.specs.Needs.{AreKeys, AreSmall, key_of};

use rc_base::NoMemory;
use std::alloc::Global;
use std::marker::Model;
use tree_core::Counts;

// Domains and RMIDs, in order and as sorted numbers.
#[derive(Drop)]
pub struct NeedLists {
    pairs: Vec<(u8, u16)>,
    keys: Vec<u32>,
}

/// The counts that a command needs, each a domain and an RMID, in the order in which it takes them. Contracts see that list.
/// Most commands need none: these hold no lists, and take 16 bytes in all.
#[derive(Drop)]
pub struct Needs {
    lists: Option<Box<NeedLists>>,
}

impl Model for Needs {
    ghost use Rattle.std.specs.Prelude.{ℕ, List};
    ghost use Rattle.journal_check.specs.Needs.{AreKeys, keys_in, pairs_in};

    ghost Value = { List (ℕ × ℕ) };

    ghost view = { λ n. pairs_in n.lists };

    ghost invariant = { λ n. AreKeys (pairs_in n.lists) (keys_in n.lists) };
}

// A domain and an RMID as one number.
fn key_of(domain: u8, rmid: u16) -> u32
    ensures { result ≡ key_of (domain, rmid) }
{
    u32::from(domain) * 65_536 + u32::from(rmid)
}

// The domains and RMIDs as a list of their own.
fn pairs_of(alloc: Global, counts: &Counts) -> Result<Vec<(u8, u16)>, NoMemory>
    ensures pairs { IfOk result (λ v. v.items ≡ counts.now) }
    ensures small { IfOk result (λ v. AreSmall v.items) }
{
    let mut pairs = Vec::new(alloc);
    for i in 0..counts.len() {
        pairs.push(counts.at(i))?;
    }
    Ok(pairs)
}

// The keys of these, sorted.
fn keys_of(alloc: Global, pairs: &[(u8, u16)]) -> Result<Vec<u32>, NoMemory>
    requires { AreSmall pairs.now }
    ensures { IfOk result (λ keys. AreKeys pairs.now keys.items) }
{
    let mut keys = Vec::new(alloc);
    for i in 0..pairs.len() {
        keys.push(key_of(pairs[i].0, pairs[i].1))?;
    }
    keys.sort_unstable();
    Ok(keys)
}

impl Needs {
    /// The counts that the tree says a command needs. NoMemory where there is no room for them.
    pub fn of(alloc: Global, counts: &Counts) -> Result<Needs, NoMemory>
        ensures { IfOk result (λ needs. needs ≡ counts.now) }
    {
        if counts.len() == 0 {
            return Ok(Needs { lists: None });
        }
        let pairs = pairs_of(alloc, counts)?;
        let keys = keys_of(alloc, &pairs)?;
        Ok(Needs {
            lists: Some(Box::new(alloc, NeedLists { pairs, keys })?),
        })
    }

    /// The domains and RMIDs, in order.
    pub fn as_slice(&self) -> &[(u8, u16)]
        ensures { result.now ≡ self.now }
    {
        match &self.lists {
            Some(lists) => lists.pairs.as_slice(),
            None => &[],
        }
    }

    /// Whether the count of an RMID in a domain is needed: a search among sorted numbers, since journals that others made may have as
    /// many looks of one command as they like.
    pub fn has(&self, domain: u8, rmid: u16) -> bool
        ensures yes { IsTrue result → Contains self.now (domain, rmid) }
        ensures none { result ≡ false → (k : ℕ) (need : ℕ × ℕ) → slice_get self.now k ≡ Some need → need.0 ≡ domain → need.1 ≡ rmid → ⊥ }
    {
        match &self.lists {
            Some(lists) => lists.keys.binary_search(&key_of(domain, rmid)).is_ok(),
            None => false,
        }
    }
}
