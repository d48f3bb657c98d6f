//! The sets of a domain that a slice has.
ghost use Rattle.std.specs.Prelude.{◌≡◌, ◌+◌, ◌-◌, ◌*◌, ◌/◌, ◌%◌, ◌^◌, ◌<◌};
ghost use Rattle.cache_core.specs.History.{ways_below};

use crate::way_bits::count_below;
use machine::Machine;

/// How many sets a slice has room for.
pub fn own_sets(m: &Machine, shift: u32) -> u32
    requires { shift < 32 }
    ensures { result ≡ (m.now.sets - 1) / 2 ^ shift + 1 }
{
    ((m.sets - 1) >> shift) + 1
}

/// How many lines a region with this mask has in a slice.
pub fn region_lines(m: &Machine, shift: u32, mask: u32) -> u64
    requires { shift < 32 }
    ensures { result ≡ m.now.sets / 2 ^ shift * ways_below mask m.now.ways }
{
    u64::from(m.sets >> shift) * u64::from(count_below(mask, m.ways))
}

/// The number of a line's set among those of its slice, of which there are as many as a power of two.
pub fn own_set(m: &Machine, shift: u32, line: u64) -> u32
    requires shift { shift < 32 }
    requires slices { m.now.slices ≡ 2 ^ shift }
    ensures { result ≡ line % m.now.sets / m.now.slices }
{
    m.set_of(line) >> shift
}
