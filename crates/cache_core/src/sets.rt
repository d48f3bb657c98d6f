//! The sets of a slice, all in flat vectors.
ghost use Rattle.std.specs.Prelude.{◌≡◌, ℕ, ◌%◌, ◌^◌, ◌<◌, ◌≤◌, length, MatchOption, IfOk, Some, None, replicate, slice_set, option_map, slice_index, ◌+◌, ◌*◌, if◌then◌else◌};
ghost use Rattle.cbm.specs.Masks.{has_way};
ghost use Rattle.cache_core.specs.Fills.{Holds, IsVictim};
ghost use Rattle.cache_core.specs.Places.{resident_in, stamp_in, place_in, set_in};

use crate::cached_line::CachedLine;
use crate::line_table::LineTable;
use crate::way_bits::{holds, with_way, without_way};
use rc_base::NoMemory;
use std::alloc::Global;
use std::marker::Model;

/// Sets of so many ways each, counted from 0. Contracts see for each set the list of its places.
///
/// The line of way w of set s stands at s * ways + w of `lines`, its stamp and its RMID there too. Bit w of word s of
/// `valid` says whether the way holds a line.
#[derive(Drop)]
pub struct Sets {
    ways: u8,
    valid: Vec<u32>,
    lines: LineTable,
    used: Vec<u32>,
    rmids: Vec<u16>,
}

impl Model for Sets {
    ghost use Rattle.std.specs.Prelude.{List, Option};
    ghost use Rattle.cache_core.specs.declared.cached_line.CachedLine.{CachedLine};
    ghost use Rattle.cache_core.specs.Flat.{IsFlat, flat_sets};

    ghost Value = { List (List (Option CachedLine)) };

    ghost view = { λ s. flat_sets (record { ways = s.ways; valid = s.valid.items; lines = s.lines; used = s.used.items; rmids = s.rmids.items }) };

    ghost invariant = { λ s. IsFlat (record { ways = s.ways; valid = s.valid.items; lines = s.lines; used = s.used.items; rmids = s.rmids.items }) };
}

impl Sets {
    /// So many sets of empty ways.
    pub fn create(alloc: Global, count: u32, ways: u8) -> Result<Sets, NoMemory>
        requires { ways ≤ 32 }
        ensures count { IfOk result (λ s. length s ≡ count) }
        ensures widths { IfOk result (λ s. (set : ℕ) → set < count → length (set_in s set) ≡ ways) }
        ensures empty { IfOk result (λ s. (set way : ℕ) → place_in (set_in s set) way ≡ None) }
    {
        let places = count as usize * ways as usize;
        let valid = vec![in alloc; 0; count as usize]?;
        let lines = LineTable::create(alloc, places)?;
        let used = vec![in alloc; 0; places]?;
        let rmids = vec![in alloc; 0; places]?;
        Ok(Sets {
            ways,
            valid,
            lines,
            used,
            rmids,
        })
    }

    /// How many ways each set has.
    pub fn ways(&self) -> u8
        ensures limit { result ≤ 32 }
        ensures widths { (set : ℕ) → set < length self.now → length (set_in self.now set) ≡ result }
    {
        self.ways
    }

    /// The way of a set that holds the line.
    pub fn find(&self, set: u32, line: u64) -> Option<u8>
        requires { set < length self.now }
        ensures { MatchOption result ((way : ℕ) → Holds (resident_in (set_in self.now set)) line way → ⊥) (λ way. (way < length (set_in self.now set)) × Holds (resident_in (set_in self.now set)) line way) }
    {
        if !self.lines.may_have(line) {
            return None;
        }
        let lines = lines_of_set(self.lines.lines(), set, self.ways);
        way_fill::find(lines, self.valid[set as usize], line)
    }

    /// The way of a set that a fill takes: the lowest empty one of the mask, or else the one that was used longest ago.
    pub fn victim(&self, set: u32, mask: u32) -> u8
        requires set { set < length self.now }
        requires mask { 0 < mask % 2 ^ length (set_in self.now set) }
        ensures { IsVictim (length (set_in self.now set)) mask (resident_in (set_in self.now set)) (stamp_in (set_in self.now set)) result }
    {
        let used = stamps_of_set(&self.used, set, self.ways);
        way_fill::victim(used, self.valid[set as usize], mask)
    }

    /// Notes that a way is used, which holds a line.
    pub fn mark(&mut self, set: u32, way: u8, stamp: u32)
        requires set { set < length self.old }
        requires way { way < length (set_in self.old set) }
        ensures { self.new ≡ slice_set self.old set (slice_set (set_in self.old set) way (option_map (λ (p : CachedLine). record p { used = stamp }) (place_in (set_in self.old set) way))) }
    {
        self.used[set as usize * self.ways as usize + way as usize] = stamp;
    }

    /// Puts a line in a way, and gives the RMID of the line that leaves it.
    pub fn put(&mut self, set: u32, way: u8, place: CachedLine) -> Option<u16>
        requires set { set < length self.old }
        requires way { way < length (set_in self.old set) }
        ensures left { result ≡ option_map (λ (p : CachedLine). p.rmid) (place_in (set_in self.old set) way) }
        ensures put { self.new ≡ slice_set self.old set (slice_set (set_in self.old set) way (Some place)) }
    {
        let at = set as usize * self.ways as usize + way as usize;
        let valid = self.valid[set as usize];
        let left = rmid_at(valid, way, self.rmids[at]);
        self.valid[set as usize] = with_way(valid, way);
        self.lines.put(at, place.line);
        self.used[at] = place.used;
        self.rmids[at] = place.rmid;
        left
    }

    /// Empties a way, and gives the RMID of the line that leaves it.
    pub fn empty(&mut self, set: u32, way: u8) -> Option<u16>
        requires set { set < length self.old }
        requires way { way < length (set_in self.old set) }
        ensures left { result ≡ option_map (λ (p : CachedLine). p.rmid) (place_in (set_in self.old set) way) }
        ensures emptied { self.new ≡ slice_set self.old set (slice_set (set_in self.old set) way None) }
    {
        let at = set as usize * self.ways as usize + way as usize;
        let valid = self.valid[set as usize];
        self.valid[set as usize] = without_way(valid, way);
        rmid_at(valid, way, self.rmids[at])
    }

    /// Empties every way of a set.
    pub fn clear(&mut self, set: u32)
        requires { set < length self.old }
        ensures { self.new ≡ slice_set self.old set (replicate (length (set_in self.old set)) None) }
    {
        self.valid[set as usize] = 0;
    }
}

// The lines of a set's ways.
fn lines_of_set(all: &[u64], set: u32, ways: u8) -> &[u64]
    requires { set * ways + ways ≤ length all.now }
    ensures count { length result.now ≡ ways }
    ensures items { (way : ℕ) → way < ways → slice_index result.now way ≡ slice_index all.now (set * ways + way) }
{
    let start = set as usize * ways as usize;
    &all[start..start + ways as usize]
}

// The stamps of a set's ways.
fn stamps_of_set(all: &[u32], set: u32, ways: u8) -> &[u32]
    requires { set * ways + ways ≤ length all.now }
    ensures count { length result.now ≡ ways }
    ensures items { (way : ℕ) → way < ways → slice_index result.now way ≡ slice_index all.now (set * ways + way) }
{
    let first = set as usize * ways as usize;
    &all[first..first + ways as usize]
}

// The RMID of a way, where it holds a line.
fn rmid_at(valid: u32, way: u8, rmid: u16) -> Option<u16>
    requires { way < 32 }
    ensures { result ≡ (if has_way valid way then Some rmid else None) }
{
    if holds(valid, way) { Some(rmid) } else { None }
}
