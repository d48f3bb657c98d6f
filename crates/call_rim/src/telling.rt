//! Writes what a program made of its input.
ghost use Rattle.std.specs.Prelude.{◌-◌, ◌<◌, ◌^◌, None, Some};
ghost use Rattle.call_rim.specs.Endings.{Says, Tells};
ghost use Rattle.call_rim.specs.Outside.{writing_of};

use crate::ended::{Ended, with_outcome, without_outcome};
use crate::performed::Performed;
use crate::status::Status;
use crate::writing::write_all;
use rc_stream::{Failed, Sink};

/// Writes a line, and ends with this status and no outcome.
pub(crate) fn say<T: Drop, K: Sink>(sink: &mut K, line: &[u8], status: Status) -> Ended<T>
    requires { K.faults sink.old < 2 ^ 64 - 1 }
    ensures { Says status None line.now
        (writing_of K.taken K.held K.faults sink.old sink.new) result.status result.outcome }
{
    match write_all(sink, line) {
        Ok(()) => without_outcome(status),
        Err(Failed) => without_outcome(Status::WriteFault),
    }
}

// Writes a report, and ends with the outcome.
fn hand_over<T: Drop, K: Sink>(sink: &mut K, report: &[u8], outcome: T) -> Ended<T>
    requires { K.faults sink.old < 2 ^ 64 - 1 }
    ensures { Says Status.Done (Some outcome) report.now
        (writing_of K.taken K.held K.faults sink.old sink.new) result.status result.outcome }
{
    match write_all(sink, report) {
        Ok(()) => with_outcome(Status::Done, outcome),
        Err(Failed) => with_outcome(Status::WriteFault, outcome),
    }
}

/// Writes what a program made of its input, for a call that reads no source: the line of a refusal or the report, and nothing
/// where memory ran out.
pub fn tell<T: Drop, K: Sink>(performed: Performed<T>, sink: &mut K) -> Ended<T>
    requires { K.faults sink.old < 2 ^ 64 - 1 }
    ensures { Tells performed
        (writing_of K.taken K.held K.faults sink.old sink.new) result.status result.outcome }
{
    match performed {
        Performed::Refused { line } => say(sink, &line, Status::Refused),
        Performed::Reported { outcome, report } => hand_over(sink, &report, outcome),
        Performed::NoMemory => without_outcome(Status::NoMemory),
    }
}
