//! The places of a slice's domain, which are emptied all at once and written one by one.
ghost use Rattle.std.specs.Prelude.{◌≡◌, ℕ, ◌+◌, ◌-◌, ◌*◌, ◌/◌, ◌%◌, ◌^◌, ◌<◌, ◌≤◌, ◌↔◌, IfOk, IsTrue, None, option_map, length};
ghost use Rattle.cache_core.specs.History.{is_own, shape_of, ways_below};
ghost use Rattle.machine.specs.Maps.{parameters_of};
ghost use Rattle.journal_check.specs.Slots.{HasLine, Puts, left_place, place_at, written};

use crate::cached_line::CachedLine;
use crate::region::{Region, ways_below};
use crate::slot::Slot;
use cbm::has_way;
use machine::Machine;
use rc_base::NoMemory;
use std::alloc::Global;
use std::marker::Model;

/// The places of every set of a domain. An emptying touches none of them: it begins a generation, and `region` says what it leaves
/// in each place until that is written.
#[derive(Drop)]
pub struct Slots {
    machine: Machine,
    slice: u8,
    slots: Vec<Slot>,
    generation: u64,
    region: Region,
}

impl Model for Slots {
    ghost use Rattle.cache_core.specs.History.{shape_of};
    ghost use Rattle.machine.specs.Maps.{parameters_of};
    ghost use Rattle.journal_check.specs.Slots.{AreSlots, SlotsValue};

    ghost Value = { SlotsValue };

    ghost view = { λ s. record { shape = shape_of (parameters_of s.machine) s.slice; slots = s.slots.items; generation = s.generation; region = s.region } };

    ghost invariant = { λ s. AreSlots (shape_of (parameters_of s.machine) s.slice) s.slots.items s.generation };
}

impl Slots {
    /// The places of the domain of a slice, all empty.
    pub fn create(alloc: Global, m: &Machine, slice: u8) -> Result<Slots, NoMemory>
        ensures shape { IfOk result (λ s. s.shape ≡ shape_of (parameters_of m.now) slice) }
        ensures generation { IfOk result (λ s. s.generation ≡ 0) }
        ensures empty { IfOk result (λ s. (set way : ℕ) → set < m.now.sets → way < m.now.ways → place_at s set way ≡ None) }
    {
        let count = m.sets as usize * usize::from(m.ways);
        let empty = Slot {
            generation: 0,
            place: None,
        };
        let slots = vec![in alloc; empty; count]?;
        Ok(Slots {
            machine: *m,
            slice,
            slots,
            generation: 0,
            region: Region {
                mask: 0,
                first_line: 0,
                stamp: 0,
            },
        })
    }

    /// How many ways a set has.
    pub fn ways(&self) -> u8
        ensures ways { result ≡ self.now.shape.ways }
        ensures few { result ≤ 32 }
    {
        self.machine.ways
    }

    /// The set of a line.
    pub fn set_of(&self, line: u64) -> u32
        ensures set { result ≡ line % self.now.shape.sets }
        ensures within { result < self.now.shape.sets }
    {
        self.machine.set_of(line)
    }

    /// Whether a set is one of the slice's own.
    pub fn is_own(&self, set: u32) -> bool
        ensures { result ≡ is_own self.now.shape set }
    {
        set % u32::from(self.machine.slices) == u32::from(self.slice)
    }

    /// How many places of the slice's own sets a region with this mask takes.
    pub fn region_lines(&self, mask: u32) -> u64
        ensures { result ≡ self.now.shape.sets / self.now.shape.slices * ways_below mask self.now.shape.ways }
    {
        let sets = self.machine.sets / u32::from(self.machine.slices);
        u64::from(sets) * u64::from(ways_below(mask, self.machine.ways))
    }

    // The number of a place's slot.
    fn index(&self, set: u32, way: u8) -> usize
        requires set { set < self.now.shape.sets }
        requires way { way < self.now.shape.ways }
        ensures number { result ≡ set * self.now.shape.ways + way }
        ensures within { result < length self.now.slots }
    {
        set as usize * usize::from(self.machine.ways) + usize::from(way)
    }

    // What was written of a place since the last emptying.
    fn written(&self, set: u32, way: u8) -> Option<Option<CachedLine>>
        requires set { set < self.now.shape.sets }
        requires way { way < self.now.shape.ways }
        ensures { result ≡ written self.now (set * self.now.shape.ways + way) }
    {
        let slot = self.slots[self.index(set, way)];
        if slot.generation == self.generation {
            Some(slot.place)
        } else {
            None
        }
    }

    /// Whether a place holds a line.
    pub fn has_line(&self, set: u32, way: u8, line: u64) -> bool
        requires set { set < self.now.shape.sets }
        requires way { way < self.now.shape.ways }
        ensures { IsTrue result ↔ HasLine (place_at self.now set way) line }
    {
        match self.written(set, way) {
            Some(Some(place)) => place.line == line,
            Some(None) => false,
            None => {
                has_way(self.region.mask, way)
                    && self.region.has_line(&self.machine, set, way, line)
            }
        }
    }

    /// When the line of a place was last used, and None where the place is empty.
    pub fn used(&self, set: u32, way: u8) -> Option<u64>
        requires set { set < self.now.shape.sets }
        requires way { way < self.now.shape.ways }
        ensures { result ≡ option_map (λ p. p.used) (place_at self.now set way) }
    {
        match self.written(set, way) {
            Some(Some(place)) => Some(place.used),
            Some(None) => None,
            None => {
                if has_way(self.region.mask, way) {
                    Some(self.region.stamp)
                } else {
                    None
                }
            }
        }
    }

    /// The RMID of the line of a place, and None where the place is empty.
    pub fn rmid(&self, set: u32, way: u8) -> Option<u16>
        requires set { set < self.now.shape.sets }
        requires way { way < self.now.shape.ways }
        ensures { result ≡ option_map (λ p. p.rmid) (place_at self.now set way) }
    {
        match self.written(set, way) {
            Some(Some(place)) => Some(place.rmid),
            Some(None) => None,
            None => {
                if has_way(self.region.mask, way) {
                    Some(0)
                } else {
                    None
                }
            }
        }
    }

    /// Writes what a place holds.
    pub fn put(&mut self, set: u32, way: u8, place: Option<CachedLine>)
        requires set { set < self.old.shape.sets }
        requires way { way < self.old.shape.ways }
        ensures { Puts self.old self.new set way place }
    {
        let at = self.index(set, way);
        self.slots[at] = Slot {
            generation: self.generation,
            place,
        };
    }

    /// Empties all places, and leaves in them the lines of a region.
    pub fn clear(&mut self, region: Region)
        requires { self.old.generation < 2 ^ 64 - 1 }
        ensures shape { self.new.shape ≡ self.old.shape }
        ensures generation { self.new.generation ≡ self.old.generation + 1 }
        ensures left { (set way : ℕ) → place_at self.new set way ≡ left_place self.old.shape region set way }
    {
        self.generation += 1;
        self.region = region;
    }
}
