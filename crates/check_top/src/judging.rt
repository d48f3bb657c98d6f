//! Checks journals, and hands back the verdict alone.
ghost use Rattle.std.specs.Prelude.{◌≤◌, IfOk, List, ℕ, length};
ghost use Rattle.call_rim.specs.Beginnings.{RefusesAll};
ghost use Rattle.call_rim.specs.Performing.{Performs};
ghost use Rattle.check_parts.specs.Judging.{HasVerdict};
ghost use Rattle.check_parts.specs.declared.form.Form.TheVariants.{Check};
ghost use Rattle.check_parts.specs.declared.limits.TheConstants.{MOST_CHECK_BYTES};
ghost use Rattle.check_top.specs.Endings.{Refuses};
ghost use Rattle.check_top.specs.Judgements.{IsJudged};

use crate::exporting::refuse;
use crate::theorems::runs_isolate;
use call_rim::Performed;
use check_parts::{
    BadInput, InputError, bad_line_of, fault_of_beginning, verdict_in, verdict_line,
};
use journal_check::Verdict;
use journal_text::theorems::texts_read_back;
use rc_base::NoMemory;
use run_law::theorems::runs_by_clauses;
use std::alloc::Global;

// The line of a verdict.
fn tell_judgement(alloc: Global, verdict: Verdict) -> Performed<Verdict>
    ensures { (bytes : List ℕ) → HasVerdict bytes verdict → Performs (Refuses Check) IsJudged bytes result }
{
    runs_isolate();
    runs_by_clauses();
    texts_read_back();
    match verdict_line(alloc, verdict) {
        Ok(report) => Performed::Reported {
            outcome: verdict,
            report,
        },
        Err(NoMemory) => Performed::NoMemory,
    }
}

/// The verdict on the journals of an input, or what is wrong with the input.
pub(crate) fn judge_bytes(alloc: Global, bytes: Vec<u8>) -> Performed<Verdict>
    requires { length bytes.items ≤ MOST_CHECK_BYTES }
    ensures { Performs (Refuses Check) IsJudged bytes.items result }
{
    match verdict_in(alloc, bytes) {
        Ok(verdict) => tell_judgement(alloc, verdict),
        Err(InputError::Bad(bad)) => refuse(alloc, bad),
        Err(InputError::NoMemory) => Performed::NoMemory,
    }
}

/// The line that refuses every input that begins with these bytes and is not too large. None where what follows may decide.
pub(crate) fn refuse_beginning(alloc: Global, bytes: &[u8]) -> Result<Option<Vec<u8>>, NoMemory>
    requires { length bytes.now ≤ MOST_CHECK_BYTES }
    ensures { IfOk result (λ found. RefusesAll MOST_CHECK_BYTES (Refuses Check) bytes.now found) }
{
    match fault_of_beginning(alloc, bytes)? {
        Some(fault) => {
            let line = bad_line_of(alloc, BadInput::BadScript(fault))?;
            Ok(Some(line))
        }
        None => Ok(None),
    }
}
