//! A line against the lines of all ways of a set, eight at a time.
ghost use Rattle.std.specs.Prelude.{◌≡◌, ℕ, ◌+◌, ◌^◌, ◌<◌, ◌≤◌, ◌&&◌, ◌==◌, nat_lt, length, slice_index};
ghost use Rattle.cbm.specs.Masks.{has_way};

use std::simd::prelude::*;

/// How many ways one vector has.
pub(crate) const LANES: usize = 8;

// The ways of eight, counted from the first of these, that have the line.
fn equal_lanes(lines: &[u64], first: usize, line: u64) -> u32
    requires { first + 8 ≤ length lines.now }
    ensures ways { (way : ℕ) → has_way result way ≡ (nat_lt way 8 && slice_index lines.now (first + way) == line) }
    ensures limit { result < 2 ^ 8 }
{
    let lanes = u64x8::from_slice(&lines[first..]);
    lanes.simd_eq(u64x8::splat(line)).to_bitmask() as u32
}

// The ways that have the line, tried one by one.
fn equal_one_by_one(lines: &[u64], line: u64) -> u32
    requires { length lines.now ≤ 32 }
    ensures { (way : ℕ) → has_way result way ≡ (nat_lt way (length lines.now) && slice_index lines.now way == line) }
{
    let mut ways = 0;
    for way in 0..lines.len() {
        ways |= u32::from(lines[way] == line) << way;
    }
    ways
}

// The same of eight ways and more. The last eight are tried together, whichever of them were tried before.
fn equal_by_lanes(lines: &[u64], line: u64) -> u32
    requires least { 8 ≤ length lines.now }
    requires ways { length lines.now ≤ 32 }
    ensures { (way : ℕ) → has_way result way ≡ (nat_lt way (length lines.now) && slice_index lines.now way == line) }
{
    let last = lines.len() - LANES;
    let mut ways = 0;
    let mut first = 0;
    while first < last {
        ways |= equal_lanes(lines, first, line) << first;
        first += LANES;
    }
    ways | (equal_lanes(lines, last, line) << last)
}

/// The ways whose line is this one: bit w of the word stands for way w.
pub fn equal_ways(lines: &[u64], line: u64) -> u32
    requires { length lines.now ≤ 32 }
    ensures { (way : ℕ) → has_way result way ≡ (nat_lt way (length lines.now) && slice_index lines.now way == line) }
{
    if lines.len() < LANES {
        equal_one_by_one(lines, line)
    } else {
        equal_by_lanes(lines, line)
    }
}
