//! The words after `share`.
ghost use Rattle.std.specs.Prelude.{◌≡◌, ◌≤◌, All, IfSome, length, option_map};
ghost use Rattle.std.specs.Option.{option_and_then};
ghost use Rattle.plan_top.specs.ShareForms.{cache_in, from_goal as from_goal_in, from_l1 as from_l1_in, from_l2 as from_l2_in, goal_in, pair_in, share_in, weight_in, wish_in, wishes_in, with_l1 as l1_with, with_l2 as l2_with};
ghost use Rattle.plan_top.specs.Levels.{level_in};
ghost use Rattle.plan_top.specs.declared.share_form.Wish.{Wish as Asked};
ghost use Rattle.share_plans.specs.declared.division_limits.TheConstants.{MOST_PROGRAMS, MOST_WEIGHT};

use crate::flags::{after_flag, begins_with};
use crate::numbers::{level_of, sets_of, ways_of};
use crate::share_form::{ShareForm, Wish, Wishes};
use arrayvec::ArrayVec;
use num_text::{cut, read_dec};
use rc_base::is_text;
use share_plans::{Goal, MOST_WEIGHT};

// The weight that a word is.
fn weight_of(text: &[u8]) -> Option<u32>
    ensures said { result ≡ weight_in text.now }
    ensures few { IfSome result (λ n. n ≤ MOST_WEIGHT) }
{
    match read_dec(text) {
        Some(n) if 1 <= n && n <= u64::from(MOST_WEIGHT) => Some(n as u32),
        _ => None,
    }
}

// What a weight and a number of ways ask for.
fn pair_of(weight: &[u8], least: &[u8]) -> Option<Wish>
    ensures said { result ≡ pair_in weight.now least.now }
    ensures few { IfSome result (λ w. w.weight ≤ MOST_WEIGHT) }
{
    let Some(weight) = weight_of(weight) else {
        return None;
    };
    match ways_of(least) {
        Some(least) => Some(Wish { weight, least }),
        None => None,
    }
}

// What the word of a program asks for.
fn wish_of(text: &[u8]) -> Option<Wish>
    ensures said { result ≡ wish_in text.now }
    ensures few { IfSome result (λ w. w.weight ≤ MOST_WEIGHT) }
{
    match cut(text, b':') {
        (weight, Some(least)) => pair_of(weight, least),
        (_, None) => None,
    }
}

// What these words ask for, of one program at least.
fn wishes_of(words: &[String]) -> Option<Wishes>
    ensures said { option_map (λ wishes. wishes.items) result ≡ wishes_in words.now }
    ensures few { IfSome result (λ wishes. length wishes.items ≤ MOST_PROGRAMS) }
    ensures weights { IfSome result (λ wishes. All (λ (w : Asked). w.weight ≤ MOST_WEIGHT) wishes.items) }
{
    if words.is_empty() {
        return None;
    }
    let mut wishes = ArrayVec::new();
    for word in words {
        if wishes.is_full() {
            return None;
        }
        let Some(wish) = wish_of(word.as_bytes()) else {
            return None;
        };
        wishes.push(wish);
    }
    Some(wishes)
}

// What a division is to achieve.
fn goal_of(words: &[String]) -> Goal
    ensures { result ≡ goal_in words.now }
{
    if begins_with(words, b"--ratio") {
        Goal::Ratio
    } else {
        Goal::Misses
    }
}

// What two numbers ask for.
fn cache_of(sets: &[u8], ways: &[u8]) -> Option<ShareForm>
    ensures { result ≡ cache_in sets.now ways.now }
{
    let Some(sets) = sets_of(sets) else {
        return None;
    };
    match ways_of(ways) {
        Some(ways) => Some(ShareForm::new(sets, ways)),
        None => None,
    }
}

// The form with what the words from `--ratio` on ask for.
fn from_goal(form: ShareForm, words: &[String]) -> Option<ShareForm>
    ensures { result ≡ from_goal_in form words.now }
{
    match wishes_of(after_flag(words, b"--ratio")) {
        Some(wishes) => Some(form.shared_by(goal_of(words), wishes)),
        None => None,
    }
}

// The form behind an L2, with what the words after that ask for.
fn with_l2(form: ShareForm, level: &[u8], rest: &[String]) -> Option<ShareForm>
    ensures { result ≡ option_and_then (λ l. from_goal_in (l2_with form l) rest.now) (level_in level.now) }
{
    match level_of(level) {
        Some(level) => from_goal(form.with_l2(level), rest),
        None => None,
    }
}

// The form with what the words from `--l2` on ask for.
fn from_l2(form: ShareForm, words: &[String]) -> Option<ShareForm>
    ensures { result ≡ from_l2_in form words.now }
{
    match words {
        [flag, level, rest @ ..] if is_text(flag.as_bytes(), b"--l2") => {
            with_l2(form, level.as_bytes(), rest)
        }
        _ => from_goal(form, words),
    }
}

// The form behind an L1, with what the words after that ask for.
fn with_l1(form: ShareForm, level: &[u8], rest: &[String]) -> Option<ShareForm>
    ensures { result ≡ option_and_then (λ l. from_l2_in (l1_with form l) rest.now) (level_in level.now) }
{
    match level_of(level) {
        Some(level) => from_l2(form.with_l1(level), rest),
        None => None,
    }
}

// The form with what all words after the two numbers ask for.
fn from_l1(form: ShareForm, words: &[String]) -> Option<ShareForm>
    ensures { result ≡ from_l1_in form words.now }
{
    match words {
        [flag, level, rest @ ..] if is_text(flag.as_bytes(), b"--l1") => {
            with_l1(form, level.as_bytes(), rest)
        }
        _ => from_l2(form, words),
    }
}

/// What the words after `share` ask for, and None where the command line is not valid.
pub(crate) fn share_of(words: &[String]) -> Option<ShareForm>
    ensures { result ≡ share_in words.now }
{
    let [sets, ways, words @ ..] = words else {
        return None;
    };
    match cache_of(sets.as_bytes(), ways.as_bytes()) {
        Some(form) => from_l1(form, words),
        None => None,
    }
}
