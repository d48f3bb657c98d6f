//! The words after `divide`.
ghost use Rattle.std.specs.Prelude.{◌≡◌};
ghost use Rattle.plan_top.specs.DivideForms.{divide_in, if_no_more as if_no_more_in, report_in};

use crate::divide_form::DivideForm;
use crate::flags::{after_flag, begins_with};
use crate::plan_form::PlanForm;

// What is asked for, where no words are left.
fn if_no_more(words: &[String], form: DivideForm) -> Option<DivideForm>
    ensures { result ≡ if_no_more_in words.now form }
{
    match words {
        [] => Some(form),
        _ => None,
    }
}

// What the words after `divide` ask for that are of the report.
fn report_of(words: &[String]) -> Option<DivideForm>
    ensures { result ≡ report_in words.now }
{
    let compare = begins_with(words, b"--compare");
    let later = after_flag(words, b"--compare");
    let only_used = begins_with(later, b"--used");
    let form = PlanForm { compare, only_used };
    if_no_more(after_flag(later, b"--used"), DivideForm::Report(form))
}

/// What the words after `divide` ask for, and None where the command line is not valid.
pub(crate) fn divide_of(words: &[String]) -> Option<DivideForm>
    ensures { result ≡ divide_in words.now }
{
    if begins_with(words, b"--apply") {
        return if_no_more(after_flag(words, b"--apply"), DivideForm::Apply);
    }
    report_of(words)
}
