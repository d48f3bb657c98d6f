//! The load of a region into the sets of a slice.
ghost use Rattle.std.specs.Prelude.{◌≡◌, ℕ, ◌^◌, ◌<◌, length, None, slice_set};

use crate::cached_line::CachedLine;
use crate::sets::Sets;
use crate::way_bits::holds;

/// The RMID of the lines of a region.
pub const REGION_RMID: u16 = 0;

/// A region to be loaded into the sets of a slice: the ways that it takes, the line of the first set in the lowest of these,
/// and the stamp of its lines. From a set of the slice to the next the lines go up by `set_step`, and from a way to the next
/// by `way_step`.
#[derive(Clone, Copy)]
pub struct RegionLoad {
    pub mask: u32,
    pub first_line: u64,
    pub set_step: u8,
    pub way_step: u32,
    pub stamp: u32,
    pub ghost far: { first_line < 2 ^ 61 },
}

impl RegionLoad {
    ghost use Rattle.cache_core.specs.declared.emptied.Emptied.TheVariants.{Locked};
    ghost use Rattle.cache_core.specs.Lazy.{left_set};
    ghost use Rattle.cache_core.specs.Places.{place_in, set_in};

    /// Loads the region's lines of one set, rising, and empties its other ways.
    pub fn load(&self, sets: &mut Sets, set: u32)
        requires { set < length sets.old }
        ensures { sets.new ≡ slice_set sets.old set (left_set (Locked self.now) set (length (set_in sets.old set))) }
    {
        sets.clear(set);
        self.load_ways(sets, set);
    }

    // Loads the region's lines of a set that holds none so far.
    fn load_ways(&self, sets: &mut Sets, set: u32)
        requires set { set < length sets.old }
        requires empty { (way : ℕ) → place_in (set_in sets.old set) way ≡ None }
        ensures { sets.new ≡ slice_set sets.old set (left_set (Locked self.now) set (length (set_in sets.old set))) }
    {
        let mut line = self.first_line + u64::from(set) * u64::from(self.set_step);
        for way in 0..sets.ways() {
            if holds(self.mask, way) {
                let _ = sets.put(set, way, self.place(line));
                line += u64::from(self.way_step);
            }
        }
    }

    // A line of the region in its place.
    fn place(&self, line: u64) -> CachedLine
        ensures { result ≡ record { line = line; rmid = 0; used = self.now.stamp } }
    {
        CachedLine {
            line,
            rmid: REGION_RMID,
            used: self.stamp,
        }
    }
}
