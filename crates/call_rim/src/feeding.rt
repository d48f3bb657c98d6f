//! Feeds a source to a program, piece by piece.
ghost use Rattle.std.specs.Prelude.{◌≡◌, ◌+◌, ◌-◌, ◌<◌, ◌≤◌, ◌^◌, IfOk, OnErr};
ghost use Rattle.call_rim.specs.Feeding.{IsMade};
ghost use Rattle.call_rim.specs.Outside.{IsGoodSoFar};

use crate::performed::Performed;
use crate::reading::room_for_a_piece;
use crate::stream_program::{MOST_STREAM_BYTES, StreamProgram, Taken};
use rc_base::NoMemory;
use rc_stream::{Failed, Source};
use std::alloc::Global;

/// What a program makes of all that a source has left, or of the beginning that it refuses whatever follows. Where the source fails,
/// what was read of it before is good so far.
pub(crate) fn feed<P: StreamProgram, S: Source>(
    alloc: Global,
    program: &P,
    source: &mut S,
) -> Result<Performed<P::Outcome>, Failed>
    requires { S.faults source.old < 2 ^ 64 - 1 }
    ensures made { IfOk result (λ made. IsMade (P.refuses program.now) (P.reports program.now) (S.left source.old) (S.left source.new) made) }
    ensures faults { IfOk result (λ made. S.faults source.new ≡ S.faults source.old) }
    ensures failed { OnErr result (S.faults source.old < S.faults source.new) }
    ensures so_far { OnErr result (IsGoodSoFar (P.good_so_far program.now) (S.left source.old) (S.left source.new)) }
    ensures end { S.ends source.new ≤ S.ends source.old + 1 }
{
    let Ok(mut buffer) = room_for_a_piece(alloc) else {
        return Ok(Performed::NoMemory);
    };
    let Ok(mut state) = program.begin(alloc) else {
        return Ok(Performed::NoMemory);
    };
    let mut taken = 0;
    while taken < MOST_STREAM_BYTES {
        let count = match source.read(&mut buffer) {
            Ok(0) => return Ok(program.finish(alloc, state)),
            Ok(count) => count,
            Err(failed) => return Err(failed),
        };
        match program.take(alloc, &mut state, &buffer[..count]) {
            Taken::More => taken += count as u64,
            Taken::Refused { line } => return Ok(Performed::Refused { line }),
            Taken::NoMemory => return Ok(Performed::NoMemory),
        }
    }
    Ok(Performed::NoMemory)
}
