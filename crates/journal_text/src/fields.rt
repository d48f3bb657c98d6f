//! Numbers as what they stand for in a field of a line.
ghost use Rattle.std.specs.Prelude.{◌≡◌, ◌^◌, ◌<◌, Bool, MatchOption};
ghost use Rattle.lists.specs.Sums.{one_if};
ghost use Rattle.journal_text.specs.Writable.{IsLine, IsLineIn, IsMask};
ghost use Rattle.machine.specs.Maps.{parameters_of};
ghost use Rattle.machine.specs.Slices.{slice_count};

use cbm::check;
use machine::Machine;

// Every line in a journal text is below this (this project's profile).
const LINE_LIMIT: u64 = 1 << 53;

/// A number below 2^32; None for a greater one.
pub(crate) fn narrow(n: u64) -> Option<u32>
    ensures { MatchOption result (n < 2 ^ 32 → ⊥) (λ x. x ≡ n) }
{
    u32::try_from(n).ok()
}

/// An RMID, which has 16 bits; None for a greater number.
pub(crate) fn rmid_of(n: u64) -> Option<u16>
    ensures { MatchOption result (n < 2 ^ 16 → ⊥) (λ x. x ≡ n) }
{
    u16::try_from(n).ok()
}

/// Whether an access hit: 1 says that it did, and 0 that it filled; None for any other number.
pub(crate) fn hit_of(n: u64) -> Option<bool>
    ensures { MatchOption result ((hit : Bool) → one_if hit ≡ n → ⊥) (λ hit. one_if hit ≡ n) }
{
    match n {
        0 => Some(false),
        1 => Some(true),
        _ => None,
    }
}

/// A way of the machine; None for a number that is none of its ways.
pub(crate) fn way_of(n: u64, machine: &Machine) -> Option<u8>
    ensures { MatchOption result (n < machine.now.ways → ⊥) (λ way. (way ≡ n) × (way < machine.now.ways)) }
{
    if n < u64::from(machine.ways) {
        Some(n as u8)
    } else {
        None
    }
}

/// A mask that is valid in the machine; None for any other number.
pub(crate) fn mask_of(n: u64, machine: &Machine) -> Option<u32>
    ensures { MatchOption result (IsMask (parameters_of machine.now) n → ⊥) (λ mask. (mask ≡ n) × IsMask (parameters_of machine.now) mask) }
{
    check(n, &machine.geometry()).ok()
}

/// A line of memory below 2^53, of any slice; None for a greater number.
pub(crate) fn line_of(n: u64) -> Option<u64>
    ensures { MatchOption result (IsLine n → ⊥) (λ line. (line ≡ n) × IsLine line) }
{
    if n < LINE_LIMIT { Some(n) } else { None }
}

/// A line of memory below 2^53 that is of this slice; None for any other number.
pub(crate) fn line_in(n: u64, machine: &Machine, slice: u32) -> Option<u64>
    requires { slice < slice_count (parameters_of machine.now) }
    ensures { MatchOption result (IsLineIn (parameters_of machine.now) slice n → ⊥) (λ line. (line ≡ n) × IsLineIn (parameters_of machine.now) slice line) }
{
    if n < LINE_LIMIT && u32::from(machine.slice_of(n)) == slice % u32::from(machine.slices) {
        Some(n)
    } else {
        None
    }
}
