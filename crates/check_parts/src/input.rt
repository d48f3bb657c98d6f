//! What an input holds.
ghost use Rattle.std.specs.Prelude.{◌≡◌, ◌≤◌, ◌^◌, IfSome, Some, length};
ghost use Rattle.check_parts.specs.BadInputs.{HasScript};
ghost use Rattle.check_parts.specs.Division.{division_of};
ghost use Rattle.check_parts.specs.Inputs.{IsScriptIn, ReadsInput, ReadsScript};
ghost use Rattle.check_parts.specs.declared.form.Form.TheVariants.{Check, Export};
ghost use Rattle.check_parts.specs.declared.form.Play.{Play};
ghost use Rattle.check_parts.specs.declared.limits.TheConstants.{MOST_CHECK_BYTES};
ghost use Rattle.script_ops.specs.declared.limits.TheConstants.{MOST_SCRIPT_BYTES};
ghost use Rattle.script_text.specs.Reading.{script_of};

use crate::bad_input::BadInput;
use crate::division::{Division, divide, journal_part, script_part};
use journal_text::ReadError;
use run_law::Journals;
use script_ops::Script;
use script_text::{ScriptError, read_script};
use std::alloc::Global;

/// Why an input was not read.
#[derive(Clone, Copy, Debug, PartialEq, Eq)]
pub enum InputError {
    /// Out of memory.
    NoMemory,
    /// This is wrong with it.
    Bad(BadInput),
}

/// A script, and the journals that are held out as those of a run of it.
#[derive(Drop)]
pub struct CheckInput {
    /// The script.
    pub script: Script,
    /// The journals.
    pub journals: Journals,
}

// The script that a text is.
fn script_of_text(alloc: Global, text: &[u8]) -> Result<Script, InputError>
    requires { length text.now ≤ 2 ^ 31 }
    ensures { IsScriptIn result (script_of text.now) }
{
    match read_script(alloc, text) {
        Ok(script) => Ok(script),
        Err(ScriptError::Bad(fault)) => Err(InputError::Bad(BadInput::BadScript(fault))),
        Err(ScriptError::NoMemory) => Err(InputError::NoMemory),
    }
}

/// The script of an input of an export, or what is wrong with the input.
pub fn script_in(alloc: Global, bytes: &[u8]) -> Result<Script, InputError>
    requires { length bytes.now ≤ MOST_SCRIPT_BYTES }
    ensures { (play : Play) → ReadsScript (Export play) bytes.now result }
{
    script_of_text(alloc, bytes)
}

/// The script of an input of a check, or what is wrong with it.
pub(crate) fn script_before(
    alloc: Global,
    bytes: &[u8],
    division: Option<Division>,
) -> Result<Script, InputError>
    requires few { length bytes.now ≤ MOST_CHECK_BYTES }
    requires divides { division ≡ division_of bytes.now }
    requires within { IfSome division (λ d. d.bytes ≤ length bytes.now) }
    ensures { ReadsScript Check bytes.now result }
{
    script_of_text(alloc, script_part(bytes, division))
}

// The script of an input of a check with the journals after it, or what is wrong with these.
fn with_journals(
    alloc: Global,
    bytes: &[u8],
    division: Division,
    script: Script,
) -> Result<CheckInput, InputError>
    requires few { length bytes.now ≤ MOST_CHECK_BYTES }
    requires divides { division_of bytes.now ≡ Some division }
    requires within { division.bytes ≤ length bytes.now }
    requires lines { division.lines ≤ division.bytes }
    requires script { HasScript Check bytes.now script }
    ensures { ReadsInput bytes.now result }
{
    match journal_text::read(alloc, journal_part(bytes, division), &script) {
        Ok(journals) => Ok(CheckInput { script, journals }),
        Err(ReadError::Bad { line }) => Err(InputError::Bad(BadInput::BadJournal {
            line: division.lines + line,
        })),
        Err(ReadError::NoMemory) => Err(InputError::NoMemory),
    }
}

/// The script and the journals of an input of a check, or what is wrong with it. The bytes are let go of.
pub fn held_in(alloc: Global, bytes: Vec<u8>) -> Result<CheckInput, InputError>
    requires { length bytes.items ≤ MOST_CHECK_BYTES }
    ensures { ReadsInput bytes.items result }
{
    let division = divide(&bytes);
    match script_before(alloc, &bytes, division) {
        Ok(script) => match division {
            Some(division) => with_journals(alloc, &bytes, division, script),
            None => Err(InputError::Bad(BadInput::NoJournal)),
        },
        Err(error) => Err(error),
    }
}
