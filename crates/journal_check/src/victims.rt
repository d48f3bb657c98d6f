//! What a set answers to an access, by its places.
ghost use Rattle.std.specs.Prelude.{◌≡◌, ℕ, ◌<◌, ◌≤◌, ◌↔◌, IsSome, IsTrue};
ghost use Rattle.cbm.specs.Masks.{has_way};
ghost use Rattle.journal_check.specs.Outcomes.{AreFull, AreNotOlder, IsMissing, IsNotOlder, IsOutcomeAt, IsPlaceAt, IsVictimAt};
ghost use Rattle.journal_check.specs.Slots.{place_at};

use crate::slots::Slots;
use cbm::has_way;

/// What the set of a line answered to an access: a hit in the way that held the line, or a fill of the way that it took.
#[derive(Clone, Copy, Debug, PartialEq, Eq)]
pub struct Outcome {
    pub line: u64,
    pub hit: bool,
    pub way: u8,
}

/// Whether no way of a set holds a line.
pub(crate) fn is_missing(slots: &Slots, set: u32, line: u64) -> bool
    requires { set < slots.now.shape.sets }
    ensures { IsTrue result ↔ IsMissing slots.now set line }
{
    for way in 0..slots.ways() {
        if slots.has_line(set, way, line) {
            return false;
        }
    }
    true
}

// Whether each way of a mask below this one holds a line.
fn are_full(slots: &Slots, set: u32, mask: u32, below: u8) -> bool
    requires set { set < slots.now.shape.sets }
    requires below { below ≤ slots.now.shape.ways }
    requires ways { slots.now.shape.ways ≤ 32 }
    ensures { IsTrue result ↔ AreFull slots.now set mask below }
{
    for way in 0..below {
        if has_way(mask, way) && slots.used(set, way).is_none() {
            return false;
        }
    }
    true
}

// Whether a line that was used then is not older than one that was used at `used`: it is younger, or as old and not before it.
fn is_not_older(other: Option<u64>, used: u64, is_before: bool) -> bool
    ensures { IsTrue result ↔ IsNotOlder other used is_before }
{
    match other {
        Some(stamp) => used < stamp || (used == stamp && !is_before),
        None => false,
    }
}

// Whether each way of a mask holds a line, and none an older one than this way's.
fn are_not_older(slots: &Slots, set: u32, mask: u32, way: u8, used: u64) -> bool
    requires { set < slots.now.shape.sets }
    ensures { IsTrue result ↔ AreNotOlder slots.now set mask way used }
{
    for w in 0..slots.ways() {
        if has_way(mask, w) && !is_not_older(slots.used(set, w), used, w < way) {
            return false;
        }
    }
    true
}

/// Whether a fill takes this way of a set.
pub(crate) fn is_victim(slots: &Slots, set: u32, mask: u32, way: u8) -> bool
    requires { set < slots.now.shape.sets }
    ensures { IsTrue result ↔ IsVictimAt slots.now set mask way }
{
    if way >= slots.ways() || !has_way(mask, way) {
        return false;
    }
    match slots.used(set, way) {
        Some(used) => are_not_older(slots, set, mask, way, used),
        None => are_full(slots, set, mask, way),
    }
}

/// Whether a set answers so to an access: a hit in a way that holds the line, or a fill of the way that it takes.
pub(crate) fn is_outcome(slots: &Slots, mask: u32, outcome: Outcome) -> bool
    ensures { IsTrue result ↔ IsOutcomeAt slots.now mask outcome.line outcome.hit outcome.way }
{
    let Outcome { line, hit, way } = outcome;
    let set = slots.set_of(line);
    if hit {
        return way < slots.ways() && slots.has_line(set, way, line);
    }
    is_missing(slots, set, line) && is_victim(slots, set, mask, way)
}

/// Whether this way holds a line, or none where no way is given.
pub(crate) fn is_place(slots: &Slots, line: u64, way: Option<u8>) -> bool
    ensures { IsTrue result ↔ IsPlaceAt slots.now line way }
{
    let set = slots.set_of(line);
    match way {
        Some(way) => way < slots.ways() && slots.has_line(set, way, line),
        None => is_missing(slots, set, line),
    }
}
