//! The first look of each command for each RMID in a slice.
ghost use Rattle.std.specs.Prelude.{◌≡◌, ℕ, ◌+◌, ◌<◌, ◌≤◌, ◌↔◌, IfOk, IsTrue, MatchOption, OnOk, Some, length, unwrap_or};
ghost use Rattle.std.specs.BTreeMap.{Updates, get_by};
ghost use Rattle.std.specs.Ordering.{nat_cmp};
ghost use Rattle.journal_check.specs.Places.{AreOwnPlaces};
ghost use Rattle.journal_check.specs.FirstLooks.{AreCounted, AreFirstLooks, NotesFirst, NotesLook, found_in, look_key, looked_in, sum_found};

use crate::OpTable;
use cache_core::{SliceEntry, What};
use rc_base::NoMemory;
use std::alloc::Global;
use std::collections::BTreeMap;

// The number of a key, which is this one if the key has none yet: one search.
fn number_of_key(looks: &mut BTreeMap<u64, u64>, key: u64, lines: u64) -> Result<u64, NoMemory>
    ensures number { IfOk result (λ n. n ≡ unwrap_or (get_by (nat_cmp key) looks.old) lines) }
    ensures ok { IfOk result (λ n. Updates nat_cmp looks.old looks.new key (Some n)) }
{
    Ok(*looks.entry(key)?.or_insert(lines))
}

// Notes a number for a key, where none was noted.
fn note_first(looks: &mut BTreeMap<u64, u64>, key: u64, lines: u64) -> Result<(), NoMemory>
    ensures { OnOk result (NotesFirst looks.old looks.new key lines) }
{
    let _first = number_of_key(looks, key, lines)?;
    Ok(())
}

// The key of a command by its place, counted from 1, and an RMID.
fn key_of(place: u64, rmid: u16) -> u64
    requires { place ≤ 4000000 }
    ensures { result ≡ look_key place rmid }
{
    place * 65536 + u64::from(rmid)
}

// Notes an entry, where it is the first look of its command for its RMID.
fn note(
    looks: &mut BTreeMap<u64, u64>,
    places: &OpTable,
    entry: &SliceEntry,
) -> Result<(), NoMemory>
    requires { AreOwnPlaces places.now }
    ensures { OnOk result (NotesLook places.now looks.old looks.new entry.now) }
{
    match entry.what {
        What::Look { rmid, lines } => match places.get(entry.thread, entry.op) {
            None | Some(0) => Ok(()),
            Some(place) => note_first(looks, key_of(place, rmid), lines),
        },
        _ => Ok(()),
    }
}

/// The first look of each command for each RMID among the entries of a slice, by the place of the command. NoMemory where there
/// is no room for them.
pub(crate) fn first_looks(
    alloc: Global,
    places: &OpTable,
    entries: &[SliceEntry],
) -> Result<BTreeMap<u64, u64>, NoMemory>
    requires { AreOwnPlaces places.now }
    ensures { IfOk result (λ looks. AreFirstLooks places.now entries.now looks) }
{
    let mut looks = BTreeMap::new(alloc);
    for entry in entries {
        note(&mut looks, places, entry)?;
    }
    Ok(looks)
}

// What the list of a slice has for a key.
fn found(looks: &[BTreeMap<u64, u64>], i: usize, key: u64) -> Option<u64>
    ensures { result ≡ found_in looks.now i key }
{
    match looks.get(i) {
        Some(map) => map.get(&key).copied(),
        None => None,
    }
}

// What is left of a number after so many lines, and None where none are given, or more than that.
fn less(left: u64, lines: Option<u64>) -> Option<u64>
    ensures { MatchOption result
        ((n : ℕ) → lines ≡ Some n → left < n)
        (λ rest. (n : ℕ) × (lines ≡ Some n) × (rest + n ≡ left)) }
{
    match lines {
        Some(lines) => {
            if lines <= left {
                Some(left - lines)
            } else {
                None
            }
        }
        None => None,
    }
}

// Whether the counts of so many slices from a first one on are all there for a key, and sum to this number.
fn are_summed(looks: &[BTreeMap<u64, u64>], first: usize, slices: u8, key: u64, count: u64) -> bool
    requires { first ≤ 65535 }
    ensures { IsTrue result ↔ (sum_found (λ x. found_in looks.now (first + x) key) slices ≡ Some count) }
{
    let mut left = count;
    for x in 0..slices {
        match less(left, found(looks, first + x as usize, key)) {
            Some(rest) => left = rest,
            None => return false,
        }
    }
    left == 0
}

// Whether the first looks of a command at this place for a need sum to this number.
fn is_counted(
    looks: &[BTreeMap<u64, u64>],
    slices: u8,
    place: u64,
    need: (u8, u16),
    count: u64,
) -> bool
    requires { place ≤ 4000000 }
    ensures { IsTrue result ↔ (looked_in looks.now slices place need ≡ Some count) }
{
    let first = need.0 as usize * slices as usize;
    are_summed(looks, first, slices, key_of(place, need.1), count)
}

/// Whether the first looks of a command at this place sum to these counts, one for each need.
pub(crate) fn are_counted(
    looks: &[BTreeMap<u64, u64>],
    slices: u8,
    place: u64,
    needs: &[(u8, u16)],
    counts: &[u64],
) -> bool
    requires place { place ≤ 4000000 }
    requires counts { length counts.now ≡ length needs.now }
    ensures { IsTrue result ↔ AreCounted looks.now slices place needs.now counts.now }
{
    for i in 0..needs.len() {
        if !is_counted(looks, slices, place, needs[i], counts[i]) {
            return false;
        }
    }
    true
}
