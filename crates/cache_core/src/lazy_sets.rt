//! The sets of a slice, which are emptied all at once, and renewed one by one.
ghost use Rattle.std.specs.Prelude.{◌≡◌, ℕ, ◌-◌, ◌+◌, ◌%◌, ◌^◌, ◌<◌, ◌≤◌, length, IfOk, IfSome, None, slice_set, slice_index};
ghost use Rattle.lists.specs.Sums.{sum_below};
ghost use Rattle.cache_core.specs.RmidCounts.{IsCounted, Recounts, Uncounts};
ghost use Rattle.cache_core.specs.Lazy.{HoldsRegion, IsLazy, KeepsWidths, lazy_sets};
ghost use Rattle.cache_core.specs.Places.{set_in, place_in};
ghost use Rattle.cache_core.specs.Stands.{Drops, Touches};

use crate::cached_line::CachedLine;
use crate::emptied::Emptied;
use crate::loading::RegionLoad;
use crate::sets::Sets;
use crate::touched::Touched;
use crate::touching::{drop_line, touch};
use occupancy::Counts;
use rc_base::NoMemory;
use std::alloc::Global;
use std::marker::Model;

/// The sets of a slice. A flush or a lock touches none of them: it begins a generation, and `emptied` says what it leaves in
/// each set. `renewed` has for each set the generation in which it was last renewed. A set of an earlier generation holds what
/// the last emptying left, whatever `sets` has of it, and is renewed when it is next touched.
#[derive(Drop)]
pub struct LazySets {
    sets: Sets,
    renewed: Vec<u64>,
    generation: u64,
    emptied: Emptied,
}

impl Model for LazySets {
    ghost use Rattle.cache_core.specs.Lazy.{IsLazy, LazyValue, lazy_sets};

    ghost Value = { LazyValue };

    ghost view = { λ s. record { places = lazy_sets s.emptied s.sets s.renewed.items s.generation; generation = s.generation } };

    ghost invariant = { λ s. IsLazy s.sets s.renewed.items s.generation };
}

impl LazySets {
    /// So many sets of empty ways.
    pub fn create(alloc: Global, count: u32, ways: u8) -> Result<LazySets, NoMemory>
        requires { ways ≤ 32 }
        ensures count { IfOk result (λ s. length s.places ≡ count) }
        ensures widths { IfOk result (λ s. (set : ℕ) → set < count → length (set_in s.places set) ≡ ways) }
        ensures empty { IfOk result (λ s. (set way : ℕ) → place_in (set_in s.places set) way ≡ None) }
        ensures generation { IfOk result (λ s. s.generation ≡ 0) }
    {
        let sets = Sets::create(alloc, count, ways)?;
        let renewed = vec![in alloc; 0; count as usize]?;
        Ok(LazySets {
            sets,
            renewed,
            generation: 0,
            emptied: Emptied::Flushed,
        })
    }

    /// Empties every way.
    pub fn flush(&mut self)
        requires room { self.old.generation < 2 ^ 32 }
        ensures widths { KeepsWidths self.old.places self.new.places }
        ensures empty { (set way : ℕ) → place_in (set_in self.new.places set) way ≡ None }
        ensures generation { self.new.generation ≡ self.old.generation + 1 }
    {
        self.generation += 1;
        self.emptied = Emptied::Flushed;
    }

    /// Empties every way, and loads a region.
    pub fn lock(&mut self, region: RegionLoad)
        requires room { self.old.generation < 2 ^ 32 }
        ensures widths { KeepsWidths self.old.places self.new.places }
        ensures loaded { HoldsRegion region self.old.places self.new.places }
        ensures generation { self.new.generation ≡ self.old.generation + 1 }
    {
        self.generation += 1;
        self.emptied = Emptied::Locked(region);
    }

    /// Looks for the line of a place in its set, and fills the place into a way of the mask where no way holds the line.
    #[inline(always)]
    pub fn touch(&mut self, counts: &mut Counts, set: u32, mask: u32, place: CachedLine) -> Touched
        requires set { set < length self.old.places }
        requires mask { 0 < mask % 2 ^ length (set_in self.old.places set) }
        requires rmid { place.rmid < length counts.old }
        requires room { sum_below (length counts.old) (slice_index counts.old) < 2 ^ 64 - 1 }
        requires counted { (way : ℕ) → IfSome (place_in (set_in self.old.places set) way) (λ p. IsCounted counts.old p.rmid) }
        ensures sets { self.new.places ≡ slice_set self.old.places set (set_in self.new.places set) }
        ensures touched { Touches (set_in self.old.places set) (set_in self.new.places set) mask place result }
        ensures generation { self.new.generation ≡ self.old.generation }
        ensures size { length counts.new ≡ length counts.old }
        ensures counts { Recounts counts.old counts.new (set_in self.old.places set) place result }
    {
        renew(
            &mut self.sets,
            &mut self.renewed,
            self.generation,
            &self.emptied,
            set,
        );
        touch(&mut self.sets, counts, set, mask, place)
    }

    /// Empties the way of a set that holds a line, and answers it.
    pub fn drop_line(&mut self, counts: &mut Counts, set: u32, line: u64) -> Option<u8>
        requires set { set < length self.old.places }
        requires counted { (way : ℕ) → IfSome (place_in (set_in self.old.places set) way) (λ p. IsCounted counts.old p.rmid) }
        ensures dropped { Drops self.old.places self.new.places set line result }
        ensures generation { self.new.generation ≡ self.old.generation }
        ensures size { length counts.new ≡ length counts.old }
        ensures counts { Uncounts counts.old counts.new (set_in self.old.places set) result }
    {
        renew(
            &mut self.sets,
            &mut self.renewed,
            self.generation,
            &self.emptied,
            set,
        );
        drop_line(&mut self.sets, counts, set, line)
    }
}

// Renews a set of an earlier generation: stores there what the last emptying left. Before the first emptying no set is behind,
// and `renewed` is not read: it would be one cache line more of each set that is touched.
#[inline(always)]
fn renew(sets: &mut Sets, renewed: &mut Vec<u64>, generation: u64, emptied: &Emptied, set: u32)
    requires lazy { IsLazy sets.old renewed.old.items generation }
    requires set { set < length sets.old }
    ensures lazy { IsLazy sets.new renewed.new.items generation }
    ensures set { slice_index renewed.new.items set ≡ generation }
    ensures count { length sets.new ≡ length sets.old }
    ensures places { lazy_sets emptied.now sets.new renewed.new.items generation ≡ lazy_sets emptied.now sets.old renewed.old.items generation }
{
    if generation == 0 {
        return;
    }
    if renewed[set as usize] < generation {
        emptied.renew(sets, set);
        renewed[set as usize] = generation;
    }
}
