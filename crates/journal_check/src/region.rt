//! What the last entry that emptied a slice left in its places.
ghost use Rattle.std.specs.Prelude.{◌≡◌, ℕ, ◌+◌, ◌*◌, ◌<◌, ◌≤◌, ◌↔◌, IsTrue};
ghost use Rattle.cache_core.specs.History.{ways_below};
ghost use Rattle.cbm.specs.Masks.{has_way};

use cbm::has_way;
use machine::Machine;

/// The region that the last emptying loaded: its ways, the line of set 0 in the lowest of these, and the stamp of its lines. A
/// flush, and a slice that was never emptied, have no ways.
#[derive(Clone, Copy, Debug, PartialEq, Eq)]
pub struct Region {
    pub mask: u32,
    pub first_line: u64,
    pub stamp: u64,
}

/// How many ways of a mask are below this one.
pub(crate) fn ways_below(mask: u32, way: u8) -> u32
    requires { way ≤ 32 }
    ensures { result ≡ ways_below mask way }
{
    let mut count = 0;
    for w in 0..way {
        count += u32::from(has_way(mask, w));
    }
    count
}

impl Region {
    /// No region, as a flush leaves it.
    pub fn none() -> Region
        ensures { result ≡ record { mask = 0; first_line = 0; stamp = 0 } }
    {
        Region {
            mask: 0,
            first_line: 0,
            stamp: 0,
        }
    }

    /// Whether the region's line in a way of its mask is this one. The region may go past the last line of 64 bits.
    pub fn has_line(&self, m: &Machine, set: u32, way: u8, line: u64) -> bool
        requires set { set < m.now.sets }
        requires way { way < m.now.ways }
        ensures { IsTrue result ↔ (line ≡ self.now.first_line + set + ways_below self.now.mask way * m.now.sets) }
    {
        let above = u64::from(set) + u64::from(ways_below(self.mask, way)) * u64::from(m.sets);
        line >= self.first_line && line - self.first_line == above
    }
}
