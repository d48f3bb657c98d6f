//! The way that a fill takes.
ghost use Rattle.std.specs.Prelude.{◌≡◌, ℕ, ◌+◌, ◌%◌, ◌^◌, ◌<◌, ◌≤◌, length, slice_index, false};
ghost use Rattle.way_fill.specs.Sets.{IsChosen, IsLeast, IsLowestEmpty};

use crate::finding::is_in_mask;

// The lowest way of the mask that is not valid, and 32 where each way of the mask is.
fn lowest_empty(valid: u32, mask: u32) -> u8
    ensures { IsLowestEmpty valid mask result }
{
    (mask & !valid).trailing_zeros() as u8
}

/// The way of the mask with the least stamp, the lowest of these. `used` has the stamp of each way.
pub fn least_used(used: &[u32], mask: u32) -> u8
    requires ways { length used.now ≤ 32 }
    requires mask { 0 < mask % 2 ^ length used.now }
    ensures { IsLeast used.now mask (length used.now) result }
{
    let mut best = mask.trailing_zeros() as u8;
    let mut least = used[best as usize];
    for way in 0..used.len() {
        let stamp = used[way];
        if stamp < least && is_in_mask(mask, way as u8) {
            best = way as u8;
            least = stamp;
        }
    }
    best
}

/// The way of a set that a fill takes: the lowest empty one of the mask, or else the one that was used longest ago, the
/// lowest of these (this project's profile). `used` has the stamp of each way, and `valid` the ways that hold a line.
pub fn victim(used: &[u32], valid: u32, mask: u32) -> u8
    requires ways { length used.now ≤ 32 }
    requires mask { 0 < mask % 2 ^ length used.now }
    ensures { IsChosen used.now valid mask result }
{
    let empty = lowest_empty(valid, mask);
    if (empty as usize) < used.len() {
        empty
    } else {
        least_used(used, mask)
    }
}
