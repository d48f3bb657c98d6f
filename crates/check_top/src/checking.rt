//! Checks journals.
ghost use Rattle.std.specs.Prelude.{◌≡◌, ◌≤◌, List, ℕ, length};
ghost use Rattle.call_rim.specs.Performing.{Performs};
ghost use Rattle.check_parts.specs.Inputs.{HoldsJournals};
ghost use Rattle.check_parts.specs.declared.form.Form.TheVariants.{Check};
ghost use Rattle.check_parts.specs.declared.limits.TheConstants.{MOST_CHECK_BYTES};
ghost use Rattle.check_top.specs.Endings.{IsChecked, Refuses};
ghost use Rattle.journal_check.specs.Verdicts.{IsVerdict};
ghost use Rattle.machine.specs.Slices.{slice_count};

use crate::checked::Checked;
use crate::exporting::refuse;
use crate::theorems::runs_isolate;
use call_rim::Performed;
use check_parts::{CheckInput, InputError, held_in, verdict_line};
use journal_check::{Verdict, check};
use journal_text::theorems::texts_read_back;
use rc_base::NoMemory;
use run_law::Journals;
use run_law::theorems::runs_by_clauses;
use script_ops::Script;
use std::alloc::Global;

// The line of a verdict.
fn tell_verdict(
    alloc: Global,
    script: &Script,
    journals: Journals,
    verdict: Verdict,
) -> Performed<Checked>
    requires { IsVerdict script.now journals verdict }
    ensures { (bytes : List ℕ) → HoldsJournals bytes script.now journals → Performs (Refuses Check) IsChecked bytes result }
{
    // A script that was read is lawful.
    let _threads = script.threads();
    runs_isolate();
    runs_by_clauses();
    texts_read_back();
    match verdict_line(alloc, verdict) {
        Ok(report) => Performed::Reported {
            outcome: Checked { journals, verdict },
            report,
        },
        Err(NoMemory) => Performed::NoMemory,
    }
}

// The verdict on journals that have a list for each slice of the script's machine.
fn judge(alloc: Global, script: &Script, journals: Journals) -> Performed<Checked>
    requires { length journals.slices ≡ slice_count script.now.machine }
    ensures { (bytes : List ℕ) → HoldsJournals bytes script.now journals → Performs (Refuses Check) IsChecked bytes result }
{
    match check(alloc, script, &journals) {
        Ok(verdict) => tell_verdict(alloc, script, journals, verdict),
        Err(NoMemory) => Performed::NoMemory,
    }
}

/// The verdict on the journals of an input, or what is wrong with the input.
pub(crate) fn check_bytes(alloc: Global, bytes: Vec<u8>) -> Performed<Checked>
    requires { length bytes.items ≤ MOST_CHECK_BYTES }
    ensures { Performs (Refuses Check) IsChecked bytes.items result }
{
    match held_in(alloc, bytes) {
        Ok(CheckInput { script, journals }) => judge(alloc, &script, journals),
        Err(InputError::Bad(bad)) => refuse(alloc, bad),
        Err(InputError::NoMemory) => Performed::NoMemory,
    }
}
