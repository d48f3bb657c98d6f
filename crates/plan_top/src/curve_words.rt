//! The words after `curve`.
ghost use Rattle.std.specs.Prelude.{◌≡◌};
ghost use Rattle.std.specs.Option.{option_and_then};
ghost use Rattle.plan_top.specs.CurveForms.{CurveWords, with_l1 as l1_with, with_l2 as l2_with, with_sample as sample_with};
ghost use Rattle.plan_top.specs.Forms.{curve_in, from_first as from_first_in, from_l1 as from_l1_in, from_l2 as from_l2_in, from_scaled as from_scaled_in, from_sample as from_sample_in, one_of_in};
ghost use Rattle.plan_top.specs.Levels.{level_in};

use crate::curve_form::CurveForm;
use crate::numbers::{curve_of, level_of, one_of_of};
use rc_base::is_text;

// The form with what the words from `--first` on ask for.
fn from_first(form: CurveForm, words: &[String]) -> Option<CurveForm>
    ensures { result ≡ from_first_in form words.now }
{
    match words {
        [] => Some(form),
        [flag] if is_text(flag.as_bytes(), b"--first") => Some(form.with_first()),
        _ => None,
    }
}

// The form of a sample with what the words after its number ask for.
fn from_scaled(form: CurveForm, words: &[String]) -> Option<CurveForm>
    ensures { result ≡ from_scaled_in form words.now }
{
    match words {
        [] => Some(form),
        [flag, rest @ ..] if is_text(flag.as_bytes(), b"--scaled") => {
            from_first(form.scaled(), rest)
        }
        _ => from_first(form, words),
    }
}

// The form of a sample, with what the words after that ask for.
fn with_sample(form: CurveForm, one_of: &[u8], rest: &[String]) -> Option<CurveForm>
    ensures { result ≡ option_and_then (λ n. from_scaled_in (sample_with form n) rest.now) (one_of_in form.sets one_of.now) }
{
    match one_of_of(form.sets(), one_of) {
        Some(one_of) => from_scaled(form.sampled(one_of), rest),
        None => None,
    }
}

// The form with what the words from `--one-of` on ask for.
fn from_sample(form: CurveForm, words: &[String]) -> Option<CurveForm>
    ensures { result ≡ from_sample_in form words.now }
{
    match words {
        [flag, one_of, rest @ ..] if is_text(flag.as_bytes(), b"--one-of") => {
            with_sample(form, one_of.as_bytes(), rest)
        }
        _ => from_first(form, words),
    }
}

// The form behind an L2, with what the words after that ask for.
fn with_l2(form: CurveForm, level: &[u8], rest: &[String]) -> Option<CurveForm>
    ensures { result ≡ option_and_then (λ l. from_sample_in (l2_with form l) rest.now) (level_in level.now) }
{
    match level_of(level) {
        Some(level) => from_sample(form.with_l2(level), rest),
        None => None,
    }
}

// The form with what the words from `--l2` on ask for.
fn from_l2(form: CurveForm, words: &[String]) -> Option<CurveForm>
    ensures { result ≡ from_l2_in form words.now }
{
    match words {
        [flag, level, rest @ ..] if is_text(flag.as_bytes(), b"--l2") => {
            with_l2(form, level.as_bytes(), rest)
        }
        _ => from_sample(form, words),
    }
}

// The form behind an L1, with what the words after that ask for.
fn with_l1(form: CurveForm, level: &[u8], rest: &[String]) -> Option<CurveForm>
    ensures { result ≡ option_and_then (λ l. from_l2_in (l1_with form l) rest.now) (level_in level.now) }
{
    match level_of(level) {
        Some(level) => from_l2(form.with_l1(level), rest),
        None => None,
    }
}

// The form with what all words after the two numbers ask for.
fn from_l1(form: CurveForm, words: &[String]) -> Option<CurveForm>
    ensures { result ≡ from_l1_in form words.now }
{
    match words {
        [flag, level, rest @ ..] if is_text(flag.as_bytes(), b"--l1") => {
            with_l1(form, level.as_bytes(), rest)
        }
        _ => from_l2(form, words),
    }
}

/// What the words after `curve` ask for: a number of sets, a number of ways, and flags.
pub(crate) fn curve_form(sets: &[u8], ways: &[u8], flags: &[String]) -> Option<CurveForm>
    ensures { result ≡ option_and_then (λ (form : CurveWords). from_l1_in form flags.now) (curve_in sets.now ways.now) }
{
    match curve_of(sets, ways) {
        Some(form) => from_l1(form, flags),
        None => None,
    }
}
