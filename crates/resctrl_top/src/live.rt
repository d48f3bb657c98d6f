//! A call of the rim that plays with workers. (A method of `Program` could start no threads.)
ghost use Rattle.std.specs.Prelude.{◌≡◌, ◌-◌, ◌<◌, ◌^◌, true};
ghost use Rattle.call_rim.specs.Endings.{Ends, LeavesBy, call_of};
ghost use Rattle.call_rim.specs.Outside.{reading_of, writing_of};
ghost use Rattle.call_rim.specs.Within.{RefusesWithin, ReportsWithin};
ghost use Rattle.resctrl_top.specs.Endings.{IsPlayed};
ghost use Rattle.resctrl_top.specs.Performances.{RefusesBytes};
ghost use Rattle.script_ops.specs.declared.limits.TheConstants.{MOST_SCRIPT_BYTES};
ghost use Rattle.top_parts.specs.Forms.{usage_line};
ghost use Rattle.top_parts.specs.declared.command.Command.TheVariants.{Run};

use crate::playing::run_bytes;
use call_rim::{Ended, ReadError, Status, read_all, tell, without_outcome};
use rc_stream::{Gate, Sink, Source};
use run_law::Journals;
use script_ops::MOST_SCRIPT_BYTES;
use std::alloc::Global;
use std::sync::Wait;
use std::thread::Threads;
use top_parts::Form;

/// Plays the script that the source holds, with a worker for each thread.
pub(crate) fn call_live<R: Threads + Wait + Sync, S: Source, K: Sink, G: Gate>(
    rt: &R,
    alloc: Global,
    form: Form,
    source: &mut S,
    sink: &mut K,
    gate: &G,
) -> Ended<Journals>
    requires command { form.command ≡ Run }
    requires source { S.faults source.old < 2 ^ 64 - 1 }
    requires sink { K.faults sink.old < 2 ^ 64 - 1 }
    ensures ends { Ends (RefusesWithin MOST_SCRIPT_BYTES RefusesBytes) (ReportsWithin MOST_SCRIPT_BYTES (IsPlayed form)) (call_of true usage_line
        (reading_of S.left S.faults source.old source.new)
        (writing_of K.taken K.held K.faults sink.old sink.new)) result.status result.outcome }
    ensures leaves { LeavesBy MOST_SCRIPT_BYTES (reading_of S.left S.faults source.old source.new) result.status }
{
    match read_all(alloc, source, MOST_SCRIPT_BYTES) {
        Ok(bytes) => tell(run_bytes(rt, alloc, form.flags, bytes, gate), sink),
        Err(ReadError::Failed) => without_outcome(Status::ReadFault),
        Err(ReadError::NoMemory) => without_outcome(Status::NoMemory),
    }
}
