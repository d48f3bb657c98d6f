//! The lines of refusals.
ghost use Rattle.std.specs.Prelude.{◌≡◌, IfOk};
ghost use Rattle.pair_text.specs.declared.fault.PairFault.TheVariants.{BadTrace};
ghost use Rattle.pair_top.specs.Ready.{TellsLine};
ghost use Rattle.pair_top.specs.Refusals.{refusal_line};

use call_rim::Performed;
use num_text::push_dec;
use pair_text::PairFault;
use rc_base::{NoMemory, TextBuf};
use script_text::ScriptFault;
use std::alloc::Global;
use top_parts::{Refusal, line_of};

// Room for the line of a bad trace, with any number.
const TRACE_LINE_ROOM: usize = 64;

// The line for a trace with a line without reading, or without end.
fn bad_trace_line(alloc: Global, line: u32) -> Result<Vec<u8>, NoMemory>
    ensures { IfOk result (λ text. text.items ≡ refusal_line (record { line = line; what = BadTrace })) }
{
    let mut text = TextBuf::with_room(alloc, TRACE_LINE_ROOM)?;
    text.push_all(b"line ".as_slice());
    push_dec(u64::from(line), &mut text);
    text.push_all(b": bad trace line\n".as_slice());
    let text = Vec::from_slice(alloc, text.bytes())?;
    Ok(text)
}

// The line of a refusal: the first bad line, counted from 1, with its first fault.
fn refusal_of(alloc: Global, line: u32, what: PairFault) -> Result<Vec<u8>, NoMemory>
    ensures { IfOk result (λ text. text.items ≡ refusal_line (record { line = line; what = what })) }
{
    match what {
        PairFault::Line(what) => line_of(alloc, Refusal::BadLine(ScriptFault { line, what })),
        PairFault::BadTrace => bad_trace_line(alloc, line),
    }
}

/// Refuses a text for its first bad line, counted from 1, with its first fault.
pub(crate) fn refuse<T: Drop>(alloc: Global, line: u32, what: PairFault) -> Performed<T>
    ensures { TellsLine (refusal_line (record { line = line; what = what })) result }
{
    match refusal_of(alloc, line, what) {
        Ok(line) => Performed::Refused { line },
        Err(NoMemory) => Performed::NoMemory,
    }
}
