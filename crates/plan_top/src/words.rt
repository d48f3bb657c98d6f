//! The words after the program's name.
ghost use Rattle.std.specs.Prelude.{◌≡◌};
ghost use Rattle.plan_top.specs.Forms.{curve_form_of as curve_form_in, form_of as form_in, usage_line};

use crate::curve_words::curve_form;
use crate::divide_words::divide_of;
use crate::filter_words::filter_of;
use crate::form::Form;
use crate::share_words::share_of;
use rc_base::is_text;

/// The line for a command line that is not valid.
pub const USAGE: &str =
    "usage: resctrl_plan curve SETS WAYS [--l1 SETSxWAYS] [--l2 SETSxWAYS] [--one-of N [--scaled]] [--first] | filter [--l1 SETSxWAYS] [--l2 SETSxWAYS] | divide [--compare] [--used] | divide --apply | share SETS WAYS [--l1 SETSxWAYS] [--l2 SETSxWAYS] [--ratio] WEIGHT:LEAST ..\n";

// What a command line that is of none of `divide`, `filter` and `share` asks for.
fn curve_form_of(words: &[String]) -> Option<Form>
    ensures { result ≡ curve_form_in words.now }
{
    match words {
        [command, sets, ways, flags @ ..] if is_text(command.as_bytes(), b"curve") => {
            curve_form(sets.as_bytes(), ways.as_bytes(), flags).map(Form::Curve)
        }
        _ => None,
    }
}

/// What a command line asks for, and None where it is not valid: `curve`, a number of sets, a number of ways, after `--l1` and after
/// `--l2` the sets and ways of a level before, after `--one-of` of how many lines a sample has one, with `--scaled` where its misses are
/// scaled, and `--first`; or `filter`, with one level or both, as `--l1` and `--l2` before; or `divide`, where its plan is to be compared
/// `--compare`, and where groups without uses are left out `--used`;
/// or `share`, a number of sets, a number of ways, `--ratio` where the worst ratio of misses is to be least, and of each program, of which
/// there are 1 to 32, its weight and the fewest ways that it gets, as WEIGHT:LEAST; and nothing else. Each word that begins with dashes
/// may be left out, but their order is this. After `divide` there may be `--apply` alone, too. (This project's profile.)
pub fn form_of(words: &[String]) -> Option<Form>
    ensures { result ≡ form_in words.now }
{
    let [command, flags @ ..] = words else {
        return None;
    };
    if is_text(command.as_bytes(), b"divide") {
        return divide_of(flags).map(Form::Divide);
    }
    if is_text(command.as_bytes(), b"filter") {
        return filter_of(flags).map(Form::Filter);
    }
    if is_text(command.as_bytes(), b"share") {
        return share_of(flags).map(Form::Share);
    }
    curve_form_of(words)
}

/// The usage line as bytes.
pub(crate) fn usage_bytes() -> &'static [u8]
    ensures { result.now ≡ usage_line }
{
    USAGE.as_bytes()
}
