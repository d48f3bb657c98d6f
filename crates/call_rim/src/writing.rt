//! Writes bytes to a sink.
ghost use Rattle.std.specs.Prelude.{◌-◌, ◌<◌, ◌^◌, OnOk, OnErr};
ghost use Rattle.call_rim.specs.Outside.{TakesAll, TakesSome, writing_of};

use rc_stream::{Failed, Sink};

// How many bytes are written at once at most.
const PIECE: usize = 65_536;

/// Writes all bytes, at most 65,536 at once, and flushes the sink. Failed where the sink failed, which then took a beginning of
/// them.
pub fn write_all<K: Sink>(sink: &mut K, bytes: &[u8]) -> Result<(), Failed>
    requires { K.faults sink.old < 2 ^ 64 - 1 }
    ensures ok { OnOk result (TakesAll (writing_of K.taken K.held K.faults sink.old sink.new) bytes.now) }
    ensures err { OnErr result (TakesSome (writing_of K.taken K.held K.faults sink.old sink.new) bytes.now) }
{
    let mut at = 0;
    while at < bytes.len() {
        let end = bytes.len().min(at.saturating_add(PIECE));
        match sink.write(&bytes[at..end]) {
            Ok(count) => at += count,
            Err(failed) => return Err(failed),
        }
    }
    sink.flush()
}
