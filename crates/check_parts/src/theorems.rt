//! The limit by its number, and laws of bad inputs and of journals that are let go of.
ghost use Rattle.std.specs.Prelude.{◌≡◌};
ghost use Rattle.check_parts.specs.CrowdedSlices.{MoreEntriesFail};
ghost use Rattle.check_parts.specs.Laws.{BadInputsAreOne};
ghost use Rattle.check_parts.specs.declared.limits.TheConstants.{MOST_CHECK_BYTES};

use journal_text::theorems::bad_lines_are_one;

/// The limit is this number (this project's profile). Every other clause cites it by its name.
pub fn limits_are_stated()
    ensures { MOST_CHECK_BYTES ≡ 1_073_741_824 }
{}

/// One thing is wrong with an input at most, so one line refuses it.
pub fn bad_inputs_are_one()
    ensures { BadInputsAreOne }
{
    bad_lines_are_one();
}

/// Of slices that have together more entries than the script weighs, the entries of some op do not stand there just as it makes them.
/// So of such slices it has to be known only whether the clauses before that one hold.
pub fn more_entries_fail()
    ensures { MoreEntriesFail }
{}
