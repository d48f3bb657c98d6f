//! The lines that an entry of a slice left, where the entries after it kept them.
ghost use Rattle.std.specs.Prelude.{◌≡◌, ℕ, List, ◌+◌, ◌-◌, ◌*◌, ◌/◌, ◌%◌, ◌<◌, ◌≤◌, ◌==◌, ◌&&◌, ◌∷◌, not, false, length};
ghost use Rattle.cache_core.specs.Filled.{empties};
ghost use Rattle.cache_core.specs.declared.entry.SliceEntry.{SliceEntry};
ghost use Rattle.cache_core.specs.History.{IsOwn, decided, decides, held, is_own};
ghost use Rattle.cache_core.specs.declared.entry.What.TheVariants.{Drop};
ghost use Rattle.cbm.specs.Masks.{has_way as has};
ghost use Rattle.machine.specs.Maps.{parameters_of};
ghost use Rattle.cache_core.specs.Whats.{is_access};
ghost use Rattle.run_counts.specs.Occupancies.{AddsPlaces, HasCounted, HasDecided, IsAtMost, OccupancyValue, SkipsPlaces};
ghost use Rattle.run_counts.specs.declared.line_counts.TheConstants.{MOST_COUNT};
ghost use Rattle.run_law.specs.Slices.{shape_in};

use crate::line_counts::Occupancy;
use crate::placed_line::PlacedLine;
use cache_core::{SliceEntry, What};
use cbm::has_way;
use machine::Machine;

// Whether a set is of slice i.
fn is_of_slice(machine: &Machine, i: u32, set: u32) -> bool
    ensures { result ≡ is_own (shape_in (parameters_of machine.now) i) set }
{
    machine.slice_of(u64::from(set)) == machine.slice_of(u64::from(i))
}

/// How many places a slice has.
pub(crate) fn places_of(machine: &Machine) -> u64
    ensures { result ≡ machine.now.sets / machine.now.slices * machine.now.ways }
{
    u64::from(machine.sets / u32::from(machine.slices)) * u64::from(machine.ways)
}

impl Occupancy {
    /// Counts a line that filled its place, where the place is of slice i.
    #[inline]
    pub(crate) fn fill(&mut self, machine: &Machine, i: u32, placed: PlacedLine, rmid: u16)
        requires sets { length self.old.seen ≡ machine.now.sets }
        requires few { IsAtMost MOST_COUNT self.old }
        ensures { AddsPlaces (shape_in (parameters_of machine.now) i) self.old self.new rmid (λ s w. (placed.line % machine.now.sets == s) && (placed.way == w)) }
    {
        let set = machine.set_of(placed.line);
        if is_of_slice(machine, i, set) && placed.way < machine.ways {
            self.put(set, placed.way, rmid);
        }
    }

    // Marks the place of a dropped line as done with, where the place is of slice i.
    fn empty(&mut self, machine: &Machine, i: u32, placed: PlacedLine)
        requires sets { length self.old.seen ≡ machine.now.sets }
        ensures { SkipsPlaces (shape_in (parameters_of machine.now) i) self.old self.new (λ s w. (placed.line % machine.now.sets == s) && (placed.way == w)) }
    {
        let set = machine.set_of(placed.line);
        if is_of_slice(machine, i, set) && placed.way < machine.ways {
            self.skip(set, placed.way);
        }
    }

    // The same, where a way held the line.
    fn empty_if_held(&mut self, machine: &Machine, i: u32, line: u64, way: Option<u8>)
        requires sets { length self.old.seen ≡ machine.now.sets }
        ensures { SkipsPlaces (shape_in (parameters_of machine.now) i) self.old self.new (λ s w. decides (shape_in (parameters_of machine.now) i) s w (Drop line way)) }
    {
        match way {
            Some(way) => self.empty(machine, i, PlacedLine { line, way }),
            None => {}
        }
    }

    // Counts the lines of a region in the ways of its mask of a set of slice i.
    fn load_set(&mut self, machine: &Machine, i: u32, mask: u32, set: u32)
        requires sets { length self.old.seen ≡ machine.now.sets }
        requires own { IsOwn (shape_in (parameters_of machine.now) i) set }
        requires few { IsAtMost (MOST_COUNT - 32) self.old }
        ensures sets { length self.new.seen ≡ length self.old.seen }
        ensures few { (most : ℕ) → IsAtMost most self.old → IsAtMost (most + 32) self.new }
        ensures adds { AddsPlaces (shape_in (parameters_of machine.now) i) self.old self.new 0 (λ s w. (set == s) && has mask w) }
    {
        for way in 0..machine.ways {
            if has_way(mask, way) {
                self.put(set, way, 0);
            }
        }
    }

    // Counts the lines of a region in slice i.
    fn load(&mut self, machine: &Machine, i: u32, mask: u32)
        requires sets { length self.old.seen ≡ machine.now.sets }
        requires few { IsAtMost (MOST_COUNT / 2) self.old }
        ensures { AddsPlaces (shape_in (parameters_of machine.now) i) self.old self.new 0 (λ s w. has mask w) }
    {
        for set in 0..machine.sets {
            if is_of_slice(machine, i, set) {
                self.load_set(machine, i, mask, set);
            }
        }
    }

    /// Counts what an entry that is no access left that the later ones kept, and says whether an earlier entry could have left
    /// something.
    pub(crate) fn take_change(&mut self, machine: &Machine, i: u32, entry: &SliceEntry) -> bool
        requires sets { length self.old.seen ≡ machine.now.sets }
        requires few { IsAtMost (MOST_COUNT / 2) self.old }
        requires change { is_access entry.now.what ≡ false }
        ensures more { result ≡ not (empties entry.now.what) }
        ensures counted { (base : OccupancyValue) (es : List SliceEntry) → HasDecided (shape_in (parameters_of machine.now) i) base (decided (shape_in (parameters_of machine.now) i) es) self.old
            → HasCounted (shape_in (parameters_of machine.now) i) base (λ s w. held (shape_in (parameters_of machine.now) i) (entry.now ∷ es) s w) self.new }
        ensures decided { (base : OccupancyValue) (es : List SliceEntry) → empties entry.now.what ≡ false → HasDecided (shape_in (parameters_of machine.now) i) base (decided (shape_in (parameters_of machine.now) i) es) self.old
            → HasDecided (shape_in (parameters_of machine.now) i) base (decided (shape_in (parameters_of machine.now) i) (entry.now ∷ es)) self.new }
    {
        match entry.what {
            What::Lock { mask, .. } => {
                self.load(machine, i, mask);
                false
            }
            What::Flush => false,
            What::Drop { line, way } => {
                self.empty_if_held(machine, i, line, way);
                true
            }
            What::Raise => true,
            What::Look { .. } => true,
            What::Access { .. } => true,
        }
    }
}
