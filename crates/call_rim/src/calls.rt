//! Calls, from the source to the sink.
ghost use Rattle.std.specs.Prelude.{◌≡◌, ◌+◌, ◌-◌, ◌<◌, ◌≤◌, ◌^◌, ℕ, List, None, true};
ghost use Rattle.call_rim.specs.Endings.{Ends, LeavesBy, Says, call_of};
ghost use Rattle.call_rim.specs.Outside.{IsGoodSoFar, reading_of, writing_of};
ghost use Rattle.call_rim.specs.Within.{RefusesWithin, ReportsWithin};
ghost use Rattle.call_rim.specs.declared.status.Status.TheVariants.{ReadFault};

use crate::early::make_early;
use crate::early_program::EarlyProgram;
use crate::ended::{Ended, without_outcome};
use crate::feeding::feed;
use crate::program::Program;
use crate::reading::{ReadError, read_all};
use crate::status::Status;
use crate::stream_program::StreamProgram;
use crate::telling::{say, tell};
use crate::within::perform_within;
use rc_stream::{Failed, Sink, Source};
use std::alloc::Global;

/// A call of a program that has its whole input first, with a command line that is valid: reads the source to its end, or to one
/// byte more than the most that the program takes, and writes the report or the line of a refusal. After its end the source is not
/// read again.
pub fn call<P: Program, S: Source, K: Sink>(
    alloc: Global,
    program: &P,
    source: &mut S,
    sink: &mut K,
) -> Ended<P::Outcome>
    requires source { S.faults source.old < 2 ^ 64 - 1 }
    requires sink { K.faults sink.old < 2 ^ 64 - 1 }
    ensures ends { (usage : List ℕ) → Ends (RefusesWithin (P.most program.now) (P.refuses program.now)) (ReportsWithin (P.most program.now) (P.reports program.now)) (call_of true usage
        (reading_of S.left S.faults source.old source.new)
        (writing_of K.taken K.held K.faults sink.old sink.new)) result.status result.outcome }
    ensures leaves { LeavesBy (P.most program.now) (reading_of S.left S.faults source.old source.new) result.status }
    ensures end { S.ends source.new ≤ S.ends source.old + 1 }
{
    match read_all(alloc, source, program.most_bytes()) {
        Ok(bytes) => tell(perform_within(alloc, program, bytes), sink),
        Err(ReadError::Failed) => without_outcome(Status::ReadFault),
        Err(ReadError::NoMemory) => without_outcome(Status::NoMemory),
    }
}

/// A call of a program that has its whole input first, unless it refuses the input by its first 2^20 bytes, with a command line that is
/// valid: does what `call` does. Of an input that its beginning refuses the rest is read, and not held.
pub fn call_early<P: EarlyProgram, S: Source, K: Sink>(
    alloc: Global,
    program: &P,
    source: &mut S,
    sink: &mut K,
) -> Ended<P::Outcome>
    requires source { S.faults source.old < 2 ^ 64 - 1 }
    requires sink { K.faults sink.old < 2 ^ 64 - 1 }
    requires large { 2 ^ 20 ≤ P.most program.now }
    ensures ends { (usage : List ℕ) → Ends (RefusesWithin (P.most program.now) (P.refuses program.now)) (ReportsWithin (P.most program.now) (P.reports program.now)) (call_of true usage
        (reading_of S.left S.faults source.old source.new)
        (writing_of K.taken K.held K.faults sink.old sink.new)) result.status result.outcome }
    ensures leaves { LeavesBy (P.most program.now) (reading_of S.left S.faults source.old source.new) result.status }
    ensures end { S.ends source.new ≤ S.ends source.old + 1 }
{
    match make_early(alloc, program, source) {
        Ok(made) => tell(made, sink),
        Err(ReadError::Failed) => without_outcome(Status::ReadFault),
        Err(ReadError::NoMemory) => without_outcome(Status::NoMemory),
    }
}

/// A call of a program that takes its input piece by piece, with a command line that is valid: reads the source to its end, or
/// until the program refuses the input, and writes the report or the line of the refusal. It takes no memory for the input but one
/// piece of 65,536 bytes. After `Refused` the source may have anything left. After its end it is not read again. `ReadFault` only where
/// what was read before the fault is good so far: a beginning that is refused is told, though the source would fail after it.
pub fn stream<P: StreamProgram, S: Source, K: Sink>(
    alloc: Global,
    program: &P,
    source: &mut S,
    sink: &mut K,
) -> Ended<P::Outcome>
    requires source { S.faults source.old < 2 ^ 64 - 1 }
    requires sink { K.faults sink.old < 2 ^ 64 - 1 }
    ensures ends { (usage : List ℕ) → Ends (P.refuses program.now) (P.reports program.now) (call_of true usage
        (reading_of S.left S.faults source.old source.new)
        (writing_of K.taken K.held K.faults sink.old sink.new)) result.status result.outcome }
    ensures so_far { result.status ≡ ReadFault → IsGoodSoFar (P.good_so_far program.now) (S.left source.old) (S.left source.new) }
    ensures end { S.ends source.new ≤ S.ends source.old + 1 }
{
    match feed(alloc, program, source) {
        Ok(performed) => tell(performed, sink),
        Err(Failed) => without_outcome(Status::ReadFault),
    }
}

/// A call with a command line that is not valid: writes the usage line, and reads nothing. (`Ends-usage` makes of this the ending
/// of any program.)
pub fn usage<T: Drop, K: Sink>(sink: &mut K, line: &[u8]) -> Ended<T>
    requires { K.faults sink.old < 2 ^ 64 - 1 }
    ensures { Says Status.Usage None line.now
        (writing_of K.taken K.held K.faults sink.old sink.new) result.status result.outcome }
{
    say(sink, line, Status::Usage)
}
