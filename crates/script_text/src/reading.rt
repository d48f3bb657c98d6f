//! Reading a script, line by line.
ghost use Rattle.std.specs.Prelude.{◌≡◌, ◌<◌, ◌≤◌, ◌^◌, length};
ghost use Rattle.std.specs.Str.Lines.{lines};
ghost use Rattle.script_text.specs.States.{state_of, IsSound, IsReady};
ghost use Rattle.script_text.specs.Reading.{Reads, reading_from, script_of, located};

use crate::reader::Reader;
use script_lines::{LineError, ScriptError, ScriptFault};
use script_ops::Script;
use std::alloc::Global;

fn at(error: LineError, line: u32) -> ScriptError
    ensures { result ≡ located error line }
{
    match error {
        LineError::Fault(what) => ScriptError::Bad(ScriptFault { line, what }),
        LineError::NoMemory => ScriptError::NoMemory,
    }
}

/// The script that a text is, or its first bad line with its first fault (this project's profile).
pub fn read_script(alloc: Global, text: &[u8]) -> Result<Script, ScriptError>
    requires { length text.now ≤ 2 ^ 31 }
    ensures { Reads result (script_of text.now) }
{
    match Reader::create(alloc) {
        Ok(reader) => read_lines(reader, text),
        Err(_) => Err(ScriptError::NoMemory),
    }
}

// The script of all lines of a text, after what was read before.
fn read_lines(reader: Reader, text: &[u8]) -> Result<Script, ScriptError>
    requires sound { IsSound (state_of reader) }
    requires ready { IsReady (state_of reader) }
    requires short { length text.now ≤ 2 ^ 31 }
    ensures { Reads result (reading_from 0 (state_of reader) (lines text.now)) }
{
    let mut reader = reader;
    let mut left = text;
    let mut number: u32 = 0;
    'lines: loop {
        match reader.take_line(left) {
            Ok(Some(rest)) => left = rest,
            Ok(None) => return reader.finish(number),
            Err(error) => return Err(at(error, number + 1)),
        }
        number += 1;
    }
}
