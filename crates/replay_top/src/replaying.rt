//! An order for the journals of an input, or why there is none.
ghost use Rattle.std.specs.Prelude.{◌≡◌, ◌≤◌, IfOk, List, ℕ, length};
ghost use Rattle.call_rim.specs.Performing.{Performs};
ghost use Rattle.check_parts.specs.BadInputs.{script_bytes};
ghost use Rattle.check_parts.specs.Inputs.{HoldsJournals};
ghost use Rattle.check_parts.specs.declared.form.Form.TheVariants.{Check};
ghost use Rattle.check_parts.specs.declared.limits.TheConstants.{MOST_CHECK_BYTES};
ghost use Rattle.journal_check.specs.Verdicts.{IsFirstFalse, IsVerdict};
ghost use Rattle.machine.specs.Slices.{slice_count};
ghost use Rattle.replay_top.specs.Reports.{Finds, FindsReport, Refuses, TellsBad};
ghost use Rattle.script_ops.specs.Values.{IsLawful};

use crate::ordering::order;
use crate::outcome::Replayed;
use call_rim::{Performed, Program};
use check_parts::{
    BadInput, CheckInput, InputError, MOST_CHECK_BYTES, bad_line_of, divide, held_in, verdict_line,
};
use journal_check::{Clause, Verdict, check};
use rc_base::NoMemory;
use run_law::Journals;
use script_ops::Script;
use std::alloc::Global;

/// The line that says what is wrong with an input.
pub(crate) fn refuse(alloc: Global, bad: BadInput) -> Performed<Replayed>
    ensures { TellsBad bad result }
{
    match bad_line_of(alloc, bad) {
        Ok(line) => Performed::Refused { line },
        Err(NoMemory) => Performed::NoMemory,
    }
}

/// The line for journals that are no run, whatever was asked for.
pub(crate) fn tell_clause(
    alloc: Global,
    script: &Script,
    journals: &Journals,
    clause: Clause,
) -> Performed<Replayed>
    requires lawful { IsLawful script.now }
    requires first { IsFirstFalse script.now journals.now clause }
    ensures order { (bytes : List ℕ) → HoldsJournals bytes script.now journals.now → Performs Refuses Finds bytes result }
    ensures report { (flags : _) (bytes : List ℕ) → HoldsJournals bytes script.now journals.now → Performs Refuses (FindsReport flags) bytes result }
{
    match verdict_line(alloc, Verdict::No { clause }) {
        Ok(report) => Performed::Reported {
            outcome: Replayed::NoRun(clause),
            report,
        },
        Err(NoMemory) => Performed::NoMemory,
    }
}

// What is made of a script, of its text, and of journals that have a list for each slice of its machine.
fn judge(alloc: Global, text: Vec<u8>, script: Script, journals: Journals) -> Performed<Replayed>
    requires { length journals.slices ≡ slice_count script.machine }
    ensures { (bytes : List ℕ) → HoldsJournals bytes script journals → text.items ≡ script_bytes Check bytes → Performs Refuses Finds bytes result }
{
    // A script that was read is lawful.
    let _threads = script.threads();
    match check(alloc, &script, &journals) {
        Ok(Verdict::Yes) => order(alloc, text, script, journals),
        Ok(Verdict::No { clause }) => tell_clause(alloc, &script, &journals, clause),
        Err(NoMemory) => Performed::NoMemory,
    }
}

// The bytes of the script of an input.
fn script_text(alloc: Global, bytes: &[u8]) -> Result<Vec<u8>, NoMemory>
    requires { length bytes.now ≤ MOST_CHECK_BYTES }
    ensures { IfOk result (λ text. text.items ≡ script_bytes Check bytes.now) }
{
    let text = match divide(bytes) {
        Some(division) => Vec::from_slice(alloc, &bytes[..division.bytes])?,
        None => Vec::from_slice(alloc, bytes)?,
    };
    Ok(text)
}

// What is made of an input, of which this is the script's text.
fn replay_held(alloc: Global, text: Vec<u8>, bytes: Vec<u8>) -> Performed<Replayed>
    requires few { length bytes.items ≤ MOST_CHECK_BYTES }
    requires text { text.items ≡ script_bytes Check bytes.items }
    ensures { Performs Refuses Finds bytes.items result }
{
    match held_in(alloc, bytes) {
        Ok(CheckInput { script, journals }) => judge(alloc, text, script, journals),
        Err(InputError::Bad(bad)) => refuse(alloc, bad),
        Err(InputError::NoMemory) => Performed::NoMemory,
    }
}

/// Finds an order for the journals of an input.
#[derive(Drop)]
pub(crate) struct OrderProgram;

impl Program for OrderProgram {
    type Outcome = Replayed;

    ghost most = { λ p. MOST_CHECK_BYTES };

    ghost refuses = { λ p. Refuses };

    ghost reports = { λ p. Finds };

    fn most_bytes(&self) -> usize {
        MOST_CHECK_BYTES
    }

    fn perform(&self, alloc: Global, bytes: Vec<u8>) -> Performed<Replayed> {
        match script_text(alloc, &bytes) {
            Ok(text) => replay_held(alloc, text, bytes),
            Err(NoMemory) => Performed::NoMemory,
        }
    }
}
