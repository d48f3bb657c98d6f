//! The numbers that words are.
ghost use Rattle.std.specs.Prelude.{◌≡◌, ◌<◌, ◌≤◌, IfSome};
ghost use Rattle.plan_top.specs.Forms.{curve_in, one_of_in};
ghost use Rattle.plan_top.specs.Levels.{level_in, shape_in};
ghost use Rattle.plan_top.specs.Numbers.{sets_in, ways_in};

use crate::curve_form::CurveForm;
use crate::limits::{MOST_SETS, MOST_WAYS};
use num_text::{cut, read_dec};
use way_curve::LevelShape;

/// The number of sets that a word is.
pub(crate) fn sets_of(text: &[u8]) -> Option<u32>
    ensures said { result ≡ sets_in text.now }
    ensures some { IfSome result (λ n. 0 < n) }
{
    match read_dec(text) {
        Some(n) if 1 <= n && n <= MOST_SETS => Some(n as u32),
        _ => None,
    }
}

/// The number of ways that a word is.
pub(crate) fn ways_of(text: &[u8]) -> Option<u8>
    ensures said { result ≡ ways_in text.now }
    ensures few { IfSome result (λ n. n ≤ 32) }
{
    match read_dec(text) {
        Some(n) if 1 <= n && n <= MOST_WAYS => Some(n as u8),
        _ => None,
    }
}

/// Of how many lines a sample has one, for a cache of so many sets.
pub(crate) fn one_of_of(sets: u32, text: &[u8]) -> Option<u32>
    ensures said { result ≡ one_of_in sets text.now }
    ensures some { IfSome result (λ n. 0 < n) }
    ensures few { IfSome result (λ n. n ≤ sets) }
{
    match read_dec(text) {
        Some(n) if 1 <= n && n <= u64::from(sets) => Some(n as u32),
        _ => None,
    }
}

// The level that has these sets and ways.
fn shape_of(sets: &[u8], ways: &[u8]) -> Option<LevelShape>
    ensures said { result ≡ shape_in sets.now ways.now }
    ensures some { IfSome result (λ level. 0 < level.sets) }
    ensures few { IfSome result (λ level. level.ways ≤ 32) }
{
    let Some(sets) = sets_of(sets) else {
        return None;
    };
    match ways_of(ways) {
        Some(ways) => Some(LevelShape { sets, ways }),
        None => None,
    }
}

/// The level that a word is: SETSxWAYS.
pub(crate) fn level_of(text: &[u8]) -> Option<LevelShape>
    ensures said { result ≡ level_in text.now }
    ensures some { IfSome result (λ level. 0 < level.sets) }
    ensures few { IfSome result (λ level. level.ways ≤ 32) }
{
    match cut(text, b'x') {
        (sets, Some(ways)) => shape_of(sets, ways),
        (_, None) => None,
    }
}

/// What two numbers after `curve` ask for.
pub(crate) fn curve_of(sets: &[u8], ways: &[u8]) -> Option<CurveForm>
    ensures { result ≡ curve_in sets.now ways.now }
{
    let Some(sets) = sets_of(sets) else {
        return None;
    };
    match ways_of(ways) {
        Some(ways) => Some(CurveForm::new(sets, ways)),
        None => None,
    }
}
