//! The numbers of names, by the names.
ghost use Rattle.std.specs.Prelude.{◌≡◌, ◌<◌, ◌^◌, ℕ, List, length, Some, None, IfOk, OnOk, OnErr, true, unwrap_or, if◌then◌else◌};
ghost use Rattle.std.specs.BTreeMap.{Updates, get_by};
ghost use Rattle.std.specs.List.{IsDistinct};
ghost use Rattle.std.specs.Ordering.{nat_cmp};
ghost use Rattle.std.specs.Str.{bytes_eq};

use crate::name_key::{has_key, key_of};
use crate::name_list::NameList;
use rc_base::NoMemory;
use std::alloc::Global;
use std::collections::BTreeMap;

/// A number for each name. A search takes few comparisons, whatever the names are: they are kept in order, short ones by
/// their keys, which are compared at once, and others by their bytes.
#[derive(Drop)]
pub(crate) struct NameIndex {
    short: BTreeMap<u128, u32>,
    long: BTreeMap<Vec<u8>, u32>,
    alloc: Global,
}

// The number of a key; a key that has none yet gets this one. One search.
fn number_of_key(numbers: &mut BTreeMap<u128, u32>, key: u128, number: u32) -> Result<u32, NoMemory>
    ensures number { IfOk result (λ n. n ≡ unwrap_or (get_by (nat_cmp key) numbers.old) number) }
    ensures ok { IfOk result (λ n. Updates nat_cmp numbers.old numbers.new key (Some n)) }
    ensures err { OnErr result ((other : ℕ) → get_by (nat_cmp other) numbers.new ≡ get_by (nat_cmp other) numbers.old) }
{
    Ok(*numbers.entry(key)?.or_insert(number))
}

impl NameIndex {
    ghost use Rattle.path_names.specs.NameIndex.{number_at, AreNumbered};
    ghost use Rattle.path_names.specs.NameKeys.{has_key};
    ghost use Rattle.path_names.specs.NameList.{names_of};

    /// No names.
    pub(crate) fn create(alloc: Global) -> NameIndex
        ensures { (name : List ℕ) → number_at result name ≡ None }
    {
        NameIndex {
            short: BTreeMap::new(alloc),
            long: BTreeMap::new(alloc),
            alloc,
        }
    }

    /// The number of each name of a list: that of its place.
    pub(crate) fn of(list: &NameList, alloc: Global) -> Result<NameIndex, NoMemory>
        requires apart { IsDistinct bytes_eq (names_of list.now) }
        requires few { length (names_of list.now) < 2 ^ 32 }
        ensures { IfOk result (λ index. AreNumbered (names_of list.now) (number_at index)) }
    {
        let mut index = NameIndex::create(alloc);
        for number in 0..list.len() {
            index.insert(list.get(number), number as u32)?;
        }
        Ok(index)
    }

    /// The number of this name.
    pub(crate) fn get(&self, name: &[u8]) -> Option<u32>
        ensures { result ≡ number_at self.now name.now }
    {
        if has_key(name) {
            self.short.get(&key_of(name)).copied()
        } else {
            self.long.get(name).copied()
        }
    }

    /// The number of this name; a name that has none yet gets this one.
    pub(crate) fn number_or(&mut self, name: &[u8], number: u32) -> Result<u32, NoMemory>
        ensures number { IfOk result (λ n. n ≡ unwrap_or (number_at self.old name.now) number) }
        ensures ok { IfOk result (λ n. (other : List ℕ) → number_at self.new other ≡ (if bytes_eq name.now other then Some n else number_at self.old other)) }
        ensures err { OnErr result ((other : List ℕ) → number_at self.new other ≡ number_at self.old other) }
    {
        if has_key(name) {
            return self.short_number_or(name, number);
        }
        if let Some(known) = self.get(name) {
            return Ok(known);
        }
        self.insert(name, number)?;
        Ok(number)
    }

    // The same of a name that has a key, by one search.
    fn short_number_or(&mut self, name: &[u8], number: u32) -> Result<u32, NoMemory>
        requires { has_key name.now ≡ true }
        ensures number { IfOk result (λ n. n ≡ unwrap_or (number_at self.old name.now) number) }
        ensures ok { IfOk result (λ n. (other : List ℕ) → number_at self.new other ≡ (if bytes_eq name.now other then Some n else number_at self.old other)) }
        ensures err { OnErr result ((other : List ℕ) → number_at self.new other ≡ number_at self.old other) }
    {
        let known = number_of_key(&mut self.short, key_of(name), number)?;
        Ok(known)
    }

    /// Gives a name this number.
    pub(crate) fn insert(&mut self, name: &[u8], number: u32) -> Result<(), NoMemory>
        ensures ok { OnOk result ((other : List ℕ) → number_at self.new other ≡ (if bytes_eq name.now other then Some number else number_at self.old other)) }
        ensures err { OnErr result ((other : List ℕ) → number_at self.new other ≡ number_at self.old other) }
    {
        if has_key(name) {
            self.short.insert(key_of(name), number)?;
            Ok(())
        } else {
            let key = Vec::from_slice(self.alloc, name)?;
            self.long.insert(key, number)?;
            Ok(())
        }
    }
}
