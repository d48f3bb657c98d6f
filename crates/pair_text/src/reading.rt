//! Reading a pair script, line by line.
ghost use Rattle.std.specs.Prelude.{◌≡◌, ◌+◌, ◌<◌, ◌≤◌, ◌^◌, IfOk, Ok, length};
ghost use Rattle.pair_text.specs.Values.{IsLawful};
ghost use Rattle.std.specs.Str.Lines.{lines};
ghost use Rattle.pair_text.specs.PairReading.{Reads, finished, located, pair_script_of, reading_from, script_in};
ghost use Rattle.pair_text.specs.Readers.{IsSound, state_of};

use crate::fault::{PairError, PairFault};
use crate::kind::{PairKind, Place};
use crate::reader::PairReader;
use crate::script::PairScript;
use crate::stop::Stop;
use rc_base::NoMemory;
use script_lines::LineFault;
use script_lines::tasks::push_ids;
use std::alloc::Global;

// Why a text was not read, where this line stopped the reader.
fn at(stop: Stop, line: u32) -> PairError
    ensures { result ≡ located stop line }
{
    match stop {
        Stop::Fault(what) => PairError::Bad { line, what },
        Stop::NoMemory => PairError::NoMemory,
    }
}

impl PairReader {
    // The script, after its last line.
    fn finish(self, lines: u32) -> Result<PairScript, PairError>
        requires { lines + 1 < 2 ^ 32 }
        ensures { Reads result (finished lines (state_of self)) }
    {
        match self.place {
            Place::Start => Err(PairError::Bad {
                line: lines + 1,
                what: PairFault::Line(LineFault::NoMachine),
            }),
            Place::Trace { task: _, cpu: _ } => Err(PairError::Bad {
                line: lines + 1,
                what: PairFault::BadTrace,
            }),
            Place::Head | Place::Body => self.into_script(),
        }
    }

    // The script of what was read.
    fn into_script(self) -> Result<PairScript, PairError>
        ensures { Reads result (Ok (script_in (state_of self))) }
    {
        let PairReader {
            alloc,
            place: _,
            machine,
            l2,
            tasks: ranges,
            ops,
            commands: _,
            uses: _,
        } = self;
        let mut tasks = Vec::new(alloc);
        match push_ids(&mut tasks, &ranges) {
            Ok(()) => Ok(PairScript::new(machine, l2, tasks, ops)),
            Err(NoMemory) => Err(PairError::NoMemory),
        }
    }
}

/// The pair script of this kind that a text is. An error is the first bad line, counted from 1, with the first fault that it has, or out of
/// memory (this project's profile; a trace has Valgrind's format).
#[tactic(auto, using(crate::proofs::LawfulScripts::lawful))]
pub fn read_pair(alloc: Global, text: &[u8], kind: PairKind) -> Result<PairScript, PairError>
    requires { length text.now ≤ 2 ^ 31 }
    ensures said { Reads result (pair_script_of kind text.now) }
    ensures lawful { IfOk result IsLawful }
{
    read_lines(PairReader::create(alloc), kind, text)
}

// The script of all lines of a text, after what was read before.
fn read_lines(reader: PairReader, kind: PairKind, text: &[u8]) -> Result<PairScript, PairError>
    requires sound { IsSound (state_of reader) }
    requires short { length text.now ≤ 2 ^ 31 }
    ensures { Reads result (reading_from kind 0 (state_of reader) (lines text.now)) }
{
    let mut reader = reader;
    let mut left = text;
    let mut number: u32 = 0;
    'lines: loop {
        match reader.take_line(kind, left) {
            Ok(Some(rest)) => left = rest,
            Ok(None) => return reader.finish(number),
            Err(stop) => return Err(at(stop, number + 1)),
        }
        number += 1;
    }
}
