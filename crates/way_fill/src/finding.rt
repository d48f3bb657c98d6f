//! The way that holds a line.
ghost use Rattle.std.specs.Prelude.{◌≡◌, ◌≢◌, ℕ, ◌+◌, ◌<◌, ◌≤◌, length, slice_index, MatchOption, false};
ghost use Rattle.cbm.specs.Masks.{has_way};
ghost use Rattle.way_fill.specs.Sets.{HoldsLine};

use crate::lanes::equal_ways;

/// From so many ways on all of them are compared at once: a line that none holds is then found missing sooner than by the walk.
const MANY_WAYS: usize = 24;

/// Whether a way is in a mask.
pub(crate) fn is_in_mask(mask: u32, way: u8) -> bool
    requires { way < 32 }
    ensures { result ≡ has_way mask way }
{
    (mask >> way) & 1 == 1
}

// Whether one of four ways has the line.
fn is_in_four(lines: &[u64], way: usize, line: u64) -> bool
    requires { way + 4 ≤ length lines.now }
    ensures { result ≡ false → (w : ℕ) → way ≤ w → w < way + 4 → slice_index lines.now w ≢ line }
{
    lines[way] == line || lines[way + 1] == line || lines[way + 2] == line || lines[way + 3] == line
}

// How many ways from the first on surely do not have the line: it looks at four at a time.
fn passed(lines: &[u64], line: u64) -> usize
    requires { length lines.now ≤ 32 }
    ensures within { result ≤ length lines.now }
    ensures none { (w : ℕ) → w < result → slice_index lines.now w ≢ line }
{
    let mut way = 0;
    while way + 4 <= lines.len() && !is_in_four(lines, way, line) {
        way += 4;
    }
    way
}

// The same, one way after the other.
fn find_in_turn(lines: &[u64], valid: u32, line: u64) -> Option<u8>
    requires { length lines.now ≤ 32 }
    ensures { MatchOption result ((way : ℕ) → way < length lines.now → HoldsLine lines.now valid line way → ⊥) (λ way. (way < length lines.now) × HoldsLine lines.now valid line way) }
{
    for way in passed(lines, line)..lines.len() {
        if lines[way] == line && is_in_mask(valid, way as u8) {
            return Some(way as u8);
        }
    }
    None
}

// The same, by all ways that have the line.
fn find_at_once(lines: &[u64], valid: u32, line: u64) -> Option<u8>
    requires { length lines.now ≤ 32 }
    ensures { MatchOption result ((way : ℕ) → way < length lines.now → HoldsLine lines.now valid line way → ⊥) (λ way. (way < length lines.now) × HoldsLine lines.now valid line way) }
{
    let ways = equal_ways(lines, line) & valid;
    if ways == 0 {
        return None;
    }
    Some(ways.trailing_zeros() as u8)
}

/// The way of a set that holds the line. `lines` has the line of each way, and `valid` the ways that hold one.
pub fn find(lines: &[u64], valid: u32, line: u64) -> Option<u8>
    requires { length lines.now ≤ 32 }
    ensures { MatchOption result ((way : ℕ) → way < length lines.now → HoldsLine lines.now valid line way → ⊥) (λ way. (way < length lines.now) × HoldsLine lines.now valid line way) }
{
    if lines.len() < MANY_WAYS {
        find_in_turn(lines, valid, line)
    } else {
        find_at_once(lines, valid, line)
    }
}
