//! What an export writes.
ghost use Rattle.std.specs.Prelude.{◌≡◌, IfOk, length};
ghost use Rattle.check_parts.specs.Exports.{ends_line, export_text as text_of, with_newline};
ghost use Rattle.machine.specs.Maps.{parameters_of};
ghost use Rattle.machine.specs.Slices.{slice_count};

use machine::Machine;
use rc_base::NoMemory;
use run_law::Journals;
use std::alloc::Global;

// Whether a text ends with a newline.
fn has_newline(bytes: &[u8]) -> bool
    ensures { result ≡ ends_line bytes.now }
{
    match bytes.last() {
        Some(byte) => *byte == b'\n',
        None => false,
    }
}

// The text with a newline, where it lacks one at its end.
fn end_line(bytes: Vec<u8>) -> Result<Vec<u8>, NoMemory>
    ensures { IfOk result (λ text. text.items ≡ with_newline bytes.items) }
{
    let mut text = bytes;
    if !has_newline(&text) {
        text.push(b'\n')?;
    }
    Ok(text)
}

/// The text of an export: the bytes of a script, a newline where the last line lacks it, and the text of journals that have a list
/// for each slice of its machine.
pub fn export_text(
    alloc: Global,
    bytes: Vec<u8>,
    machine: &Machine,
    journals: &Journals,
) -> Result<Vec<u8>, NoMemory>
    requires { length journals.now.slices ≡ slice_count (parameters_of machine.now) }
    ensures { IfOk result (λ text. text.items ≡ text_of bytes.items (parameters_of machine.now) journals.now) }
{
    let journal = journal_text::print(alloc, journals, machine)?;
    let mut text = end_line(bytes)?;
    text.extend_from_slice(&journal)?;
    Ok(text)
}
