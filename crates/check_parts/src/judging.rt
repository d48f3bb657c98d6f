//! The verdict on an input, without what no verdict stands on.
ghost use Rattle.std.specs.Prelude.{◌≡◌, ◌≤◌, ℕ, List, Ok, Some, length};
ghost use Rattle.check_parts.specs.BadInputs.{HasScript};
ghost use Rattle.check_parts.specs.Division.{division_of};
ghost use Rattle.check_parts.specs.Judging.{HasSlices, ReadsExpected, ReadsVerdict};
ghost use Rattle.check_parts.specs.declared.form.Form.TheVariants.{Check};
ghost use Rattle.check_parts.specs.declared.limits.TheConstants.{MOST_CHECK_BYTES};
ghost use Rattle.journal_check.specs.Tables.{IsTableOf};

use crate::bad_input::BadInput;
use crate::division::{Division, divide, journal_part};
use crate::expected_journals::ExpectedJournals;
use crate::input::{InputError, script_before};
use journal_check::Verdict;
use journal_text::{ReadError, read_with};
use rc_base::NoMemory;
use script_ops::Script;
use std::alloc::Global;

// What is kept of the journals of an input, or what is wrong with them.
fn expected_in(
    alloc: Global,
    bytes: &[u8],
    division: Division,
    script: &Script,
) -> Result<ExpectedJournals, InputError>
    requires few { length bytes.now ≤ MOST_CHECK_BYTES }
    requires divides { division_of bytes.now ≡ Some division }
    requires within { division.bytes ≤ length bytes.now }
    requires lines { division.lines ≤ division.bytes }
    requires script { HasScript Check bytes.now script.now }
    ensures { ReadsExpected bytes.now script.now result }
{
    let Ok(nothing) = ExpectedJournals::create(alloc, script) else {
        return Err(InputError::NoMemory);
    };
    match read_with(alloc, journal_part(bytes, division), script, nothing) {
        Ok(kept) => Ok(kept),
        Err(ReadError::Bad { line }) => Err(InputError::Bad(BadInput::BadJournal {
            line: division.lines + line,
        })),
        Err(ReadError::NoMemory) => Err(InputError::NoMemory),
    }
}

// The verdict on what was kept.
fn verdict_on(alloc: Global, script: &Script, kept: ExpectedJournals) -> Result<Verdict, InputError>
    requires table { IsTableOf script.now kept.counts }
    requires slices { HasSlices script.now kept.left }
    ensures { (bytes : List ℕ) → ReadsExpected bytes script.now (Ok kept) → ReadsVerdict bytes result }
{
    // A script that was read is lawful.
    let _threads = script.threads();
    match kept.verdict(alloc, script) {
        Ok(verdict) => Ok(verdict),
        Err(NoMemory) => Err(InputError::NoMemory),
    }
}

// The verdict on the journals of an input with this script. The bytes are let go of before the check.
fn verdict_after(
    alloc: Global,
    bytes: Vec<u8>,
    division: Division,
    script: &Script,
) -> Result<Verdict, InputError>
    requires few { length bytes.items ≤ MOST_CHECK_BYTES }
    requires divides { division_of bytes.items ≡ Some division }
    requires within { division.bytes ≤ length bytes.items }
    requires lines { division.lines ≤ division.bytes }
    requires script { HasScript Check bytes.items script.now }
    ensures { ReadsVerdict bytes.items result }
{
    let read = expected_in(alloc, &bytes, division, script);
    drop(bytes);
    match read {
        Ok(kept) => verdict_on(alloc, script, kept),
        Err(error) => Err(error),
    }
}

/// The verdict on the journals of an input of a check, or what is wrong with the input. Of journals with a command that no run goes on
/// with nothing is kept from that command on, and each op has a number. Slices that have together more entries than the script weighs
/// are judged and let go of, but for the first looks of commands. So what is kept is bounded by the script, and not by the input. The
/// bytes are let go of.
pub fn verdict_in(alloc: Global, bytes: Vec<u8>) -> Result<Verdict, InputError>
    requires { length bytes.items ≤ MOST_CHECK_BYTES }
    ensures { ReadsVerdict bytes.items result }
{
    let division = divide(&bytes);
    match script_before(alloc, &bytes, division) {
        Ok(script) => match division {
            Some(division) => verdict_after(alloc, bytes, division, &script),
            None => Err(InputError::Bad(BadInput::NoJournal)),
        },
        Err(error) => Err(error),
    }
}
