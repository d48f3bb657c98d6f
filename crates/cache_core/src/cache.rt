//! One slice of a cache.
ghost use Rattle.std.specs.Prelude.{◌≡◌, ℕ, ◌+◌, ◌-◌, ◌%◌, ◌/◌, ◌*◌, ◌^◌, ◌<◌, ◌≤◌, ◌↔◌, List, [], ◌∷◌, ◌++◌, length, if◌then◌else◌, IfOk, None};
ghost use Rattle.machine.specs.Maps.{parameters_of};
ghost use Rattle.cache_core.specs.declared.entry.SliceEntry.{SliceEntry};
ghost use Rattle.cache_core.specs.declared.entry.What.TheVariants.{Raise, Flush, Lock, Look, Drop};
ghost use Rattle.cache_core.specs.History.{IsOwn, is_own, shape_of, lines_of, valid_of, ways_below};
ghost use Rattle.cache_core.specs.Places.{set_in, place_in};
ghost use Rattle.cache_core.specs.Stands.{Accesses, Adds, StandsFor, IsStale, Touches, clock_after, entry};
ghost use Rattle.lists.specs.Sums.{sum_below};

use crate::cached_line::CachedLine;
use crate::lazy_sets::LazySets;
use crate::loading::{REGION_RMID, RegionLoad};
use crate::own_sets::{own_set, own_sets, region_lines};
use crate::touched::Touched;
use machine::Machine;
use occupancy::Counts;
use rc_base::{NoMemory, Tag};
use std::alloc::Global;
use std::marker::Model;

/// One slice of a cache. It stands for the legal lists of entries that leave what it holds: `access`, `raise`, `flush`, `lock`
/// and `drop_line` each add the one entry that legality allows. `clock` counts these entries. `sets` has the slice's own sets
/// alone, set s of the domain at s >> `shift`, and `counts` how many lines each RMID has in them.
#[derive(Drop)]
pub struct Cache {
    machine: Machine,
    slice: u8,
    shift: u32,
    sets: LazySets,
    counts: Counts,
    floor: u64,
    clock: u64,
}

impl Model for Cache {
    ghost use Rattle.std.specs.Prelude.{◌≤◌};
    ghost use Rattle.machine.specs.Maps.{parameters_of};
    ghost use Rattle.cache_core.specs.History.{shape_of};
    ghost use Rattle.cache_core.specs.Kept.{IsKept, spread};
    ghost use Rattle.cache_core.specs.Places.{CacheValue};

    ghost Value = { CacheValue };

    ghost view = { λ c. record { shape = shape_of (parameters_of c.machine) c.slice; rmids = c.machine.rmids; places = spread (shape_of (parameters_of c.machine) c.slice) c.sets.places; floor = c.floor; clock = c.clock } };

    ghost invariant = { λ c. IsKept (shape_of (parameters_of c.machine) c.slice) c.machine.rmids c.clock c.sets.places c.counts c.shift × (c.sets.generation ≤ c.clock) };
}

impl Cache {
    /// One slice of the cache of one domain, empty, both counted from 0 (this project's profile: set s is of slice
    /// s mod `slices`). The caches of a machine are all alike, so that the domain changes nothing.
    pub fn create(alloc: Global, m: &Machine, domain: u8, slice: u8) -> Result<Cache, NoMemory>
        requires domain { domain < m.now.domains }
        requires slice { slice < m.now.slices }
        ensures shape { IfOk result (λ c. c.shape ≡ shape_of (parameters_of m.now) slice) }
        ensures rmids { IfOk result (λ c. c.rmids ≡ m.now.rmids) }
        ensures floor { IfOk result (λ c. c.floor ≡ 0) }
        ensures clock { IfOk result (λ c. c.clock ≡ 0) }
        ensures empty { IfOk result (λ c. StandsFor c []) }
    {
        let shift = m.slices.trailing_zeros();
        let sets = LazySets::create(alloc, own_sets(m, shift), m.ways)?;
        let counts = Counts::create(alloc, m.rmids)?;
        Ok(Cache {
            machine: *m,
            slice,
            shift,
            sets,
            counts,
            floor: 0,
            clock: 0,
        })
    }

    /// The least epoch that an access may have.
    pub fn floor(&self) -> u64
        ensures { result ≡ self.now.floor }
    {
        self.floor
    }

    /// Raises the floor to the epoch of a command, so that older tags are stale. Every line stays.
    pub fn raise(&mut self, epoch: u64)
        requires epoch { self.old.floor ≤ epoch }
        requires room { self.old.clock < 2 ^ 32 }
        ensures shape { self.new.shape ≡ self.old.shape }
        ensures rmids { self.new.rmids ≡ self.old.rmids }
        ensures floor { self.new.floor ≡ epoch }
        ensures clock { self.new.clock ≡ self.old.clock + 1 }
        ensures entry { Adds self.old self.new epoch Raise }
    {
        self.floor = epoch; // tags of before are stale
        self.clock += 1;
    }

    /// Empties every way, and raises the floor to the epoch of the command.
    pub fn flush(&mut self, epoch: u64)
        requires epoch { self.old.floor ≤ epoch }
        requires room { self.old.clock < 2 ^ 32 }
        ensures shape { self.new.shape ≡ self.old.shape }
        ensures rmids { self.new.rmids ≡ self.old.rmids }
        ensures floor { self.new.floor ≡ epoch }
        ensures clock { self.new.clock ≡ self.old.clock + 1 }
        ensures entry { Adds self.old self.new epoch Flush }
    {
        self.sets.flush();
        self.counts.clear();
        self.floor = epoch;
        self.clock += 1;
    }

    /// Empties every way, loads a region into the ways of a mask, and raises the floor to the epoch of the command (this
    /// project's profile): in set s of the domain the i-th way of the mask, rising, holds line `first_line` + s + i * sets,
    /// with RMID 0. Ways from the machine's number on are passed over.
    pub fn lock(&mut self, epoch: u64, mask: u32, first_line: u64)
        requires epoch { self.old.floor ≤ epoch }
        requires room { self.old.clock < 2 ^ 32 }
        requires first_line { first_line < 2 ^ 60 }
        ensures shape { self.new.shape ≡ self.old.shape }
        ensures rmids { self.new.rmids ≡ self.old.rmids }
        ensures floor { self.new.floor ≡ epoch }
        ensures clock { self.new.clock ≡ self.old.clock + 1 }
        ensures entry { Adds self.old self.new epoch (Lock mask first_line) }
    {
        self.sets.lock(RegionLoad {
            mask,
            first_line: first_line + u64::from(self.slice),
            set_step: self.machine.slices,
            way_step: self.machine.sets,
            stamp: self.clock as u32,
        });
        self.counts.clear();
        self.counts
            .add_lines(REGION_RMID, region_lines(&self.machine, self.shift, mask));
        self.floor = epoch;
        self.clock += 1;
    }

    /// Empties the way that holds a line, and answers it: None exactly where no way does. The floor stays.
    pub fn drop_line(&mut self, epoch: u64, line: u64) -> Option<u8>
        requires own { IsOwn self.old.shape (line % self.old.shape.sets) }
        requires epoch { self.old.floor ≤ epoch }
        requires room { self.old.clock < 2 ^ 32 }
        ensures shape { self.new.shape ≡ self.old.shape }
        ensures rmids { self.new.rmids ≡ self.old.rmids }
        ensures floor { self.new.floor ≡ self.old.floor }
        ensures clock { self.new.clock ≡ self.old.clock + 1 }
        ensures entry { Adds self.old self.new epoch (Drop line result) }
    {
        self.clock += 1;
        let set = own_set(&self.machine, self.shift, line);
        self.sets.drop_line(&mut self.counts, set, line)
    }

    /// How many places hold a line of this RMID, one of the machine (SDM volume 3, cache monitoring: occupancy in lines).
    pub fn look(&self, rmid: u16) -> u64
        requires rmid { rmid < self.now.rmids }
        ensures count { (history : List SliceEntry) → StandsFor self.now history → result ≡ lines_of self.now.shape history rmid }
        ensures entry { (epoch : ℕ) → Adds self.now self.now epoch (Look rmid result) }
    {
        self.counts.of(rmid)
    }

    /// How many places hold a line, whatever its RMID.
    pub fn valid(&self) -> u64
        ensures count { (history : List SliceEntry) → StandsFor self.now history → result ≡ valid_of self.now.shape history }
        ensures sum { (history : List SliceEntry) → StandsFor self.now history → sum_below self.now.rmids (lines_of self.now.shape history) ≡ result }
    {
        self.counts.total()
    }

    /// Looks for the line in its set, and fills it into a way of the tag's mask where no way holds it. A tag that is older
    /// than the floor is stale, and then nothing changes.
    #[inline(always)]
    pub fn access(&mut self, tag: &Tag, line: u64) -> Touched
        requires own { IsOwn self.old.shape (line % self.old.shape.sets) }
        requires mask { 0 < tag.now.mask % 2 ^ self.old.shape.ways }
        requires rmid { tag.now.rmid < self.old.rmids }
        requires room { self.old.clock < 2 ^ 32 }
        ensures shape { self.new.shape ≡ self.old.shape }
        ensures rmids { self.new.rmids ≡ self.old.rmids }
        ensures floor { self.new.floor ≡ self.old.floor }
        ensures clock { self.new.clock ≡ clock_after self.old.clock result }
        ensures stale { IsStale result ↔ (tag.now.epoch < self.old.floor) }
        ensures entry { Accesses self.old self.new tag.now line result }
    {
        if tag.epoch < self.floor {
            return Touched::Stale { floor: self.floor };
        }
        let place = CachedLine {
            line,
            rmid: tag.rmid,
            used: self.clock as u32,
        };
        self.clock += 1;
        let set = own_set(&self.machine, self.shift, line);
        self.sets.touch(&mut self.counts, set, tag.mask, place)
    }
}
