//! The words after `filter`.
ghost use Rattle.std.specs.Prelude.{◌≡◌};
ghost use Rattle.std.specs.Option.{option_and_then};
ghost use Rattle.plan_top.specs.FilterForms.{filter_in, from_l2 as from_l2_in, last_l2 as last_l2_in, with_l1 as l1_with};
ghost use Rattle.plan_top.specs.Levels.{level_in};
ghost use Rattle.way_curve.specs.FirstLevels.{no_levels};

use crate::filter_form::FilterForm;
use crate::numbers::level_of;
use rc_base::is_text;

// The form with an L2, after which no word may stand.
fn last_l2(form: FilterForm, level: &[u8], rest: &[String]) -> Option<FilterForm>
    ensures { result ≡ last_l2_in form level.now rest.now }
{
    match (level_of(level), rest) {
        (Some(level), []) => Some(form.with_l2(level)),
        _ => None,
    }
}

// The form with an L1, and with what the words after that ask for.
fn from_l2(form: FilterForm, words: &[String]) -> Option<FilterForm>
    ensures { result ≡ from_l2_in form words.now }
{
    match words {
        [] => Some(form),
        [flag, level, rest @ ..] if is_text(flag.as_bytes(), b"--l2") => {
            last_l2(form, level.as_bytes(), rest)
        }
        _ => None,
    }
}

// The form with an L1 of this shape, and with what the words after that ask for.
fn with_l1(level: &[u8], rest: &[String]) -> Option<FilterForm>
    ensures { result ≡ option_and_then (λ l. from_l2_in (l1_with no_levels l) rest.now) (level_in level.now) }
{
    match level_of(level) {
        Some(level) => from_l2(FilterForm::new().with_l1(level), rest),
        None => None,
    }
}

/// What the words after `filter` ask for: after `--l1` and after `--l2` the sets and ways of a level, one of them at least, in this order;
/// and None where the command line is not valid.
pub(crate) fn filter_of(words: &[String]) -> Option<FilterForm>
    ensures { result ≡ filter_in words.now }
{
    match words {
        [] => None,
        [flag, level, rest @ ..] if is_text(flag.as_bytes(), b"--l1") => {
            with_l1(level.as_bytes(), rest)
        }
        _ => from_l2(FilterForm::new(), words),
    }
}
