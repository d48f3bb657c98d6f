//! What is wrong with an input.
ghost use Rattle.std.specs.Prelude.{◌≡◌, IfOk};
ghost use Rattle.check_parts.specs.BadInputs.{bad_line};

use num_text::push_dec;
use rc_base::{NoMemory, TextBuf};
use script_text::ScriptFault;
use std::alloc::Global;
use top_parts::{Refusal, line_of};

/// What is wrong with an input (this project's profile).
#[derive(Clone, Copy, Debug, PartialEq, Eq)]
pub enum BadInput {
    /// It has more bytes than are taken.
    TooLarge,
    /// Its script has this first bad line, with this first fault.
    BadScript(ScriptFault),
    /// A check finds no line that begins journals.
    NoJournal,
    /// Its journals have no reading: this is their first bad line, counted from 1 through the whole input.
    BadJournal { line: u32 },
}

// The line for journals that have no reading.
fn bad_journal_line(alloc: Global, line: u32) -> Result<Vec<u8>, NoMemory>
    ensures { IfOk result (λ text. text.items ≡ bad_line (BadInput.BadJournal line)) }
{
    let mut text = TextBuf::with_room(alloc, 64)?;
    text.push_all(b"line ".as_slice());
    push_dec(u64::from(line), &mut text);
    text.push_all(b": bad journal\n".as_slice());
    let text = Vec::from_slice(alloc, text.bytes())?;
    Ok(text)
}

// A line as it is.
fn own_line(alloc: Global, line: &[u8]) -> Result<Vec<u8>, NoMemory>
    ensures { IfOk result (λ text. text.items ≡ line.now) }
{
    let text = Vec::from_slice(alloc, line)?;
    Ok(text)
}

/// The line that tells what is wrong with an input.
pub fn bad_line_of(alloc: Global, bad: BadInput) -> Result<Vec<u8>, NoMemory>
    ensures { IfOk result (λ text. text.items ≡ bad_line bad) }
{
    match bad {
        BadInput::TooLarge => own_line(alloc, b"line 0: script too large\n"),
        BadInput::BadScript(fault) => line_of(alloc, Refusal::BadLine(fault)),
        BadInput::NoJournal => own_line(alloc, b"line 0: no journal\n"),
        BadInput::BadJournal { line } => bad_journal_line(alloc, line),
    }
}
