//! The mask of a new group.
ghost use Rattle.std.specs.Prelude.{◌≡◌, ℕ, ◌≤◌, ◌||◌, not, filter, IsTrue, IfSome};
ghost use Rattle.std.specs.List.{range_with_len};
ghost use Rattle.std.specs.Option.{option_map};
ghost use Rattle.cbm.specs.Masks.{has_way, ways_of};
ghost use Rattle.cbm.specs.Validity.{checked};
ghost use Rattle.mode_rules.specs.StartingWays.{initial_ways, may_start_with, starting_ways};

use crate::domain_use::DomainUse;
use cbm::{Geometry, count, lowest_run};

/// The mask of a new group in a cache that others use so, and None exactly where there is no space.
///
/// A new group may start with the ways that other hardware or shareable groups use and those that nobody uses. It gets
/// all of them on a sparse machine, and on any other their lowest run of adjacent ways. On either there is no space where
/// that run has fewer than `min` ways, or there is none (this project's profile).
pub fn initial_mask(others: &DomainUse, g: &Geometry) -> Option<u32>
    requires { g.now.len ≤ 32 }
    ensures ways { option_map ways_of result ≡ initial_ways g.now others.now }
    ensures valid { IfSome result (λ mask. checked g.now mask ≡ Ok mask) }
    ensures within { IfSome result
        (λ mask. (way : ℕ) → IsTrue (has_way mask way) → IsTrue (may_start_with others.now way)) }
{
    let ways = starting_mask(others, g.len);
    let run = lowest_run(ways);
    if run == 0 || count(run) < u32::from(g.min) {
        return None;
    }
    if g.sparse { Some(ways) } else { Some(run) }
}

// The ways that a new group may start with.
fn starting_mask(others: &DomainUse, len: u8) -> u32
    requires { len ≤ 32 }
    ensures { ways_of result ≡ starting_ways len others.now }
{
    let given = others.hardware | others.shared;
    let taken = others.exclusive | others.region;
    given_or_free(given, taken, len)
}

// Of the first `len` ways, those that are given and those that are not taken.
fn given_or_free(given: u32, taken: u32, len: u8) -> u32
    requires { len ≤ 32 }
    ensures { ways_of result
        ≡ filter (λ way. has_way given way || not (has_way taken way)) (range_with_len 0 len) }
{
    let first = ((1u64 << len) - 1) as u32;
    (given | !taken) & first
}
