//! What is wrong with an input whatever follows its beginning.
ghost use Rattle.std.specs.Prelude.{◌≡◌, ◌-◌, ◌<◌, ◌≤◌, ◌^◌, ◌==◌, IfOk, count_by, length, slice_index};
ghost use Rattle.check_parts.specs.Beginnings.{FindsAnyFault, FindsBadLine, FindsFault};
ghost use Rattle.check_parts.specs.declared.limits.TheConstants.{MOST_CHECK_BYTES};

use crate::division::{divide, script_part};
use rc_base::NoMemory;
use script_lines::ScriptFault;
use script_text::{ScriptError, read_script};
use std::alloc::Global;

// How many bytes of a text are whole lines.
fn whole_bytes(text: &[u8]) -> usize
    ensures within { result ≤ length text.now }
    ensures newline { 0 < result → slice_index text.now (result - 1) ≡ 10 }
{
    let mut end = text.len();
    'bytes: while end > 0 {
        if text[end - 1] == b'\n' {
            return end;
        }
        end -= 1;
    }
    0
}

// How many lines of a text end with a newline.
fn newlines(text: &[u8]) -> usize
    ensures { result ≡ count_by (λ b. b == 10) text.now }
{
    text.iter().filter(|b| **b == b'\n').count()
}

// The fault of a script that is whole.
fn fault_of_script(alloc: Global, text: &[u8]) -> Result<Option<ScriptFault>, NoMemory>
    requires { length text.now ≤ 2 ^ 31 }
    ensures { IfOk result (λ found. FindsAnyFault text.now found) }
{
    match read_script(alloc, text) {
        Ok(_) => Ok(None),
        Err(ScriptError::Bad(fault)) => Ok(Some(fault)),
        Err(ScriptError::NoMemory) => Err(NoMemory),
    }
}

// The fault of a script of which these are the first lines, where one of them is bad.
fn fault_of_lines(alloc: Global, lines: &[u8]) -> Result<Option<ScriptFault>, NoMemory>
    requires { length lines.now ≤ 2 ^ 31 }
    ensures { IfOk result (λ found. FindsBadLine lines.now found) }
{
    match fault_of_script(alloc, lines)? {
        Some(fault) if fault.line as usize <= newlines(lines) => Ok(Some(fault)),
        _ => Ok(None),
    }
}

/// The fault of the script of every input of a check that begins with these bytes. None where the bytes do not decide it: what follows the
/// last newline among them is not looked at.
pub fn fault_of_beginning(alloc: Global, bytes: &[u8]) -> Result<Option<ScriptFault>, NoMemory>
    requires { length bytes.now ≤ MOST_CHECK_BYTES }
    ensures { IfOk result (λ found. FindsFault bytes.now found) }
{
    let end = whole_bytes(bytes);
    if end == 0 {
        return Ok(None);
    }
    let lines = &bytes[..end];
    match divide(lines) {
        Some(division) => fault_of_script(alloc, script_part(lines, Some(division))),
        None => fault_of_lines(alloc, lines),
    }
}
