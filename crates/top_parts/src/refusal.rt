//! Why the bytes of an input are no script.
ghost use Rattle.std.specs.Prelude.{◌≡◌, ◌≤◌, IfOk, length};
ghost use Rattle.top_parts.specs.Meaning.{fault_text, line_number, refusal_line, refusal_text};

use num_text::push_dec;
use rc_base::{NoMemory, TextBuf};
use script_text::{LineFault, ScriptFault};
use std::alloc::Global;

/// Why the bytes of an input are no script (this project's profile).
#[derive(Clone, Copy, Debug, PartialEq, Eq)]
pub enum Refusal {
    /// The first bad line, and its first fault.
    BadLine(ScriptFault),
    /// There are more than `MOST_SCRIPT_BYTES`.
    TooLarge,
}

impl Refusal {
    /// The number of the line, from 1; 0 stands for the whole.
    pub fn line(self) -> u32
        ensures { result ≡ line_number self }
    {
        match self {
            Refusal::BadLine(fault) => fault.line,
            Refusal::TooLarge => 0,
        }
    }

    /// The words for it.
    pub fn text(self) -> &'static str
        ensures text { result.now ≡ refusal_text self }
        ensures short { length result.now ≤ 16 }
    {
        match self {
            Refusal::BadLine(fault) => text_of(fault.what),
            Refusal::TooLarge => "script too large",
        }
    }
}

// The words for the fault of a line.
fn text_of(fault: LineFault) -> &'static str
    ensures text { result.now ≡ fault_text fault }
    ensures short { length result.now ≤ 16 }
{
    match fault {
        LineFault::BadByte => "bad byte",
        LineFault::NoMachine => "no machine line",
        LineFault::UnknownWord => "unknown word",
        LineFault::OutOfPlace => "out of place",
        LineFault::BadMachine => "bad machine line",
        LineFault::BadTasks => "bad tasks line",
        LineFault::BadArgument => "bad argument",
        LineFault::BadPath => "bad path",
        LineFault::UnknownTask => "unknown task",
        LineFault::BadEscape => "bad escape",
        LineFault::TooLarge => "script too large",
    }
}

/// The line that tells a refusal.
pub fn line_of(alloc: Global, refusal: Refusal) -> Result<Vec<u8>, NoMemory>
    ensures { IfOk result (λ line. line.items ≡ refusal_line refusal) }
{
    let mut line = TextBuf::with_room(alloc, 64)?;
    line.push_all(b"line ".as_slice());
    push_dec(u64::from(refusal.line()), &mut line);
    line.push_all(b": ".as_slice());
    line.push_all(refusal.text().as_bytes());
    line.push(b'\n');
    let line = Vec::from_slice(alloc, line.bytes())?;
    Ok(line)
}
