//! Feeds a source to a program that passes its input on, and writes the text.
ghost use Rattle.std.specs.Prelude.{◌≡◌, ◌+◌, ◌-◌, ◌<◌, ◌≤◌, ◌^◌, ℕ, List, ◌∷◌, [], ◌++◌, length, Option, OnOk, OnErr, Ok, None};
ghost use Rattle.call_rim.specs.Outside.{TakesSome, reading_of, writing_of};
ghost use Rattle.call_rim.specs.Passing.{Hands, IsHanded, IsWaiting, Moves, PassEnds, PassSays};
ghost use Rattle.call_rim.specs.declared.pass_program.Passing.TheVariants.{Good};
ghost use Rattle.call_rim.specs.declared.pass_program.TheConstants.{MOST_DUE_BYTES};

use crate::ended::{Ended, without_outcome};
use crate::pass_program::{MOST_DUE_BYTES, PassProgram, Passing};
use crate::reading::{PIECE, room_for_a_piece};
use crate::status::Status;
use crate::stream_program::MOST_STREAM_BYTES;
use crate::telling::say;
use crate::writing::write_all;
use rc_base::TextBuf;
use rc_stream::{Failed, Sink, Source};
use std::alloc::Global;

// Writes a text that waits, if it is long.
fn write_long<K: Sink>(out: &mut TextBuf, sink: &mut K) -> Result<(), Failed>
    requires { K.faults sink.old < 2 ^ 64 - 1 }
    ensures moves { OnOk result (Moves (K.taken sink.old) (K.taken sink.new) out.old.bytes out.new.bytes) }
    ensures faults { OnOk result (K.faults sink.new ≡ K.faults sink.old) }
    ensures few { OnOk result (length out.new.bytes < 65536) }
    ensures room { OnOk result (length out.new.bytes + out.new.spare ≡ length out.old.bytes + out.old.spare) }
    ensures failed { OnErr result (TakesSome (writing_of K.taken K.held K.faults sink.old sink.new) out.old.bytes) }
{
    if out.bytes().len() < PIECE {
        return Ok(());
    }
    match write_all(sink, out.bytes()) {
        Ok(()) => {
            out.clear();
            Ok(())
        }
        Err(failed) => Err(failed),
    }
}

// Passes one byte on.
fn pass_byte<P: PassProgram, K: Sink>(
    program: &P,
    state: &mut P::State,
    byte: u8,
    out: &mut TextBuf,
    sink: &mut K,
) -> Result<Passing, Failed>
    requires faults { K.faults sink.old < 2 ^ 64 - 1 }
    requires few { P.count program.now state.old + 1 < 2 ^ 57 }
    requires waits { IsWaiting out.old }
    ensures hands { (start : Option (List ℕ)) (bytes : List ℕ) → IsHanded (P.has_passed program.now state.old) (P.due program.now) start (K.taken sink.old) bytes out.old.bytes
        → Hands (P.has_passed program.now state.new) (P.due program.now) (P.refuses program.now) start (K.taken sink.new) (bytes ++ byte ∷ []) out.new.bytes result }
    ensures waits { result ≡ Ok Good → IsWaiting out.new }
    ensures count { result ≡ Ok Good → P.count program.now state.new ≡ P.count program.now state.old + 1 }
    ensures faults { OnOk result (K.faults sink.new ≡ K.faults sink.old) }
    ensures failed { OnErr result (K.faults sink.old < K.faults sink.new) }
{
    match program.take(state, byte, out) {
        Passing::Good => match write_long(out, sink) {
            Ok(()) => Ok(Passing::Good),
            Err(failed) => Err(failed),
        },
        Passing::Refused => Ok(Passing::Refused),
    }
}

// Passes the bytes of a piece on.
fn pass_piece<P: PassProgram, K: Sink>(
    program: &P,
    state: &mut P::State,
    piece: &[u8],
    out: &mut TextBuf,
    sink: &mut K,
) -> Result<Passing, Failed>
    requires faults { K.faults sink.old < 2 ^ 64 - 1 }
    requires few { P.count program.now state.old + length piece.now < 2 ^ 57 }
    requires waits { IsWaiting out.old }
    ensures hands { (start : Option (List ℕ)) (bytes : List ℕ) → IsHanded (P.has_passed program.now state.old) (P.due program.now) start (K.taken sink.old) bytes out.old.bytes
        → Hands (P.has_passed program.now state.new) (P.due program.now) (P.refuses program.now) start (K.taken sink.new) (bytes ++ piece.now) out.new.bytes result }
    ensures waits { result ≡ Ok Good → IsWaiting out.new }
    ensures count { result ≡ Ok Good → P.count program.now state.new ≡ P.count program.now state.old + length piece.now }
    ensures faults { OnOk result (K.faults sink.new ≡ K.faults sink.old) }
    ensures failed { OnErr result (K.faults sink.old < K.faults sink.new) }
{
    for byte in piece {
        match pass_byte(program, state, *byte, out, sink) {
            Ok(Passing::Good) => {}
            Ok(Passing::Refused) => return Ok(Passing::Refused),
            Err(failed) => return Err(failed),
        }
    }
    Ok(Passing::Good)
}

// Writes the rest of the text, after the last byte.
fn pass_end<P: PassProgram, K: Sink>(
    program: &P,
    state: P::State,
    mut out: TextBuf,
    sink: &mut K,
) -> Ended<()>
    requires faults { K.faults sink.old < 2 ^ 64 - 1 }
    requires waits { IsWaiting out }
    ensures says { (bytes written : List ℕ) → P.has_passed program.now state bytes (written ++ out.bytes)
        → PassSays (P.passes program.now) (P.refuses program.now) bytes written (writing_of K.taken K.held K.faults sink.old sink.new) result.status }
    ensures none { result.outcome ≡ None }
{
    match program.finish(state, &mut out) {
        Passing::Good => say(sink, out.bytes(), Status::Done),
        Passing::Refused => say(sink, out.bytes(), Status::Refused),
    }
}

/// A call of a program that passes its input on, with a command line that is valid: reads the source to its end, or until the program
/// refuses the input, and writes the text as it becomes due, 65,536 bytes or more at once, so that it leaves before the input has ended.
/// It takes no memory for the input but one piece of 65,536 bytes. After its end the source is not read again.
pub fn pass<P: PassProgram, S: Source, K: Sink>(
    alloc: Global,
    program: &P,
    source: &mut S,
    sink: &mut K,
) -> Ended<()>
    requires source { S.faults source.old < 2 ^ 64 - 1 }
    requires sink { K.faults sink.old < 2 ^ 64 - 1 }
    ensures ends { PassEnds (P.due program.now) (P.refuses program.now) (P.passes program.now)
        (reading_of S.left S.faults source.old source.new)
        (writing_of K.taken K.held K.faults sink.old sink.new) result.status }
    ensures none { result.outcome ≡ None }
    ensures end { S.ends source.new ≤ S.ends source.old + 1 }
{
    let Ok(mut state) = program.begin(alloc) else {
        return without_outcome(Status::NoMemory);
    };
    let Ok(mut buffer) = room_for_a_piece(alloc) else {
        return without_outcome(Status::NoMemory);
    };
    let Ok(mut out) = TextBuf::with_room(alloc, PIECE + MOST_DUE_BYTES) else {
        return without_outcome(Status::NoMemory);
    };
    let mut taken = 0;
    while taken < MOST_STREAM_BYTES {
        let count = match source.read(&mut buffer) {
            Ok(0) => return pass_end(program, state, out, sink),
            Ok(count) => count,
            Err(Failed) => return without_outcome(Status::ReadFault),
        };
        match pass_piece(program, &mut state, &buffer[..count], &mut out, sink) {
            Ok(Passing::Good) => taken += count as u64,
            Ok(Passing::Refused) => return say(sink, out.bytes(), Status::Refused),
            Err(Failed) => return without_outcome(Status::WriteFault),
        }
    }
    without_outcome(Status::NoMemory)
}
