//! The lines of a region.
ghost use Rattle.std.specs.Prelude.{◌≡◌, ◌<◌, ◌≤◌, ◌^◌, ◌↔◌, IsNone, IsTrue, false, length};
ghost use Rattle.cbm.specs.Masks.{has_way, ways_of};
ghost use Rattle.machine.specs.Maps.{bytes_of, parameters_of};
ghost use Rattle.pseudo_lock.specs.Lines.{line_at, loaded_line, ways_below};

use crate::region::Region;
use cbm::count;
use machine::Machine;

// The bytes of a line.
const LINE_BYTES: u64 = 64;

/// The line of a region at this offset in bytes. `None` says that the offset is not below the region's size
/// (this project's profile).
pub fn line_at(region: &Region, machine: &Machine, offset: u64) -> Option<u64>
    requires { region.now.first_line < 2 ^ 60 }
    ensures line { result ≡ line_at (parameters_of machine.now) region.now offset }
    ensures past { IsNone result ↔ (bytes_of (parameters_of machine.now) (ways_of region.now.mask) ≤ offset) }
{
    if machine.bytes_of(region.mask) <= offset {
        return None;
    }
    Some(region.first_line + offset / LINE_BYTES)
}

/// The line that a Lock of these ways puts in this way of a set, both numbered from 0. `None` says that the mask does
/// not have the way (this project's profile).
pub fn load_place(machine: &Machine, mask: u32, first_line: u64, set: u32, way: u8) -> Option<u64>
    requires set { set < machine.now.sets }
    requires low { first_line < 2 ^ 60 }
    ensures line { result ≡ loaded_line (parameters_of machine.now) mask first_line set way }
    ensures absent { IsNone result ↔ (has_way mask way ≡ false) }
{
    if !has_way(mask, way) {
        return None;
    }
    let rows = u64::from(ways_below(mask, way)) * u64::from(machine.sets);
    Some(first_line + u64::from(set) + rows)
}

// Whether the mask has the way.
fn has_way(mask: u32, way: u8) -> bool
    ensures way { result ≡ has_way mask way }
    ensures exists { IsTrue result → way < 32 }
{
    u32::from(way) < u32::BITS && (mask >> way) & 1 == 1
}

// How many ways below this one the mask has.
fn ways_below(mask: u32, way: u8) -> u32
    requires { way < 32 }
    ensures { result ≡ ways_below mask way }
{
    count(mask % (1 << way))
}
