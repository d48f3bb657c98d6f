//! The top call.
ghost use Rattle.std.specs.Prelude.{◌≡◌, ◌+◌, ◌-◌, ◌<◌, ◌≤◌, ◌^◌, IfOk, None, OnErr};
ghost use Rattle.std.specs.Process.{exit_status};
ghost use Rattle.call_rim.specs.Codes.{code_of};
ghost use Rattle.call_rim.specs.Endings.{call_of};
ghost use Rattle.call_rim.specs.Outside.{reading_of, writing_of};
ghost use Rattle.call_rim.specs.declared.status.Status.TheVariants.{NoMemory as OutOfMemory};
ghost use Rattle.plan_top.specs.Forms.{form_of as form_in, usage_line};
ghost use Rattle.plan_top.specs.Endings.{EndsBy, EndsWith, FailsBy, IsComplete, Leaves};
ghost use Rattle.plan_top.specs.Plans.{is_valid};

use crate::divide::divide;
use crate::form::Form;
use crate::words::{form_of, usage_bytes};
use call_rim::{Ended, Status, pass, stream, usage};
use rc_base::NoMemory;
use rc_stream::{Sink, Source};
use std::alloc::Global;
use std::process::ExitCode;

/// Reads the trace, the script or the stream of programs that the source holds, and writes to the sink what the words ask for, or the
/// line that says why there is none. What each status says is in `EndsBy`, and which is due in `IsComplete`. A trace or a stream is read
/// piece by piece, and the first bad line is told as soon as it has ended: `ReadFault` only where no line before the fault was bad.
/// After the end of the source, and where the command line is not valid, the source is not called.
pub fn top_plan<S: Source, K: Sink>(
    alloc: Global,
    words: &[String],
    source: &mut S,
    sink: &mut K,
) -> Ended<()>
    requires source { S.faults source.old < 2 ^ 64 - 1 }
    requires sink { K.faults sink.old < 2 ^ 64 - 1 }
    ensures ends { EndsBy (form_in words.now)
        (reading_of S.left S.faults source.old source.new)
        (writing_of K.taken K.held K.faults sink.old sink.new) result.status result.outcome }
    ensures complete { IsComplete (form_in words.now) (call_of (is_valid (form_in words.now)) usage_line
        (reading_of S.left S.faults source.old source.new)
        (writing_of K.taken K.held K.faults sink.old sink.new)) result.status }
    ensures leaves { Leaves (form_in words.now) (reading_of S.left S.faults source.old source.new) result.status }
    ensures fails { FailsBy (form_in words.now) (reading_of S.left S.faults source.old source.new) result.status }
    ensures end { S.ends source.new ≤ S.ends source.old + 1 }
    ensures unread { form_in words.now ≡ None → source.new ≡ source.old }
{
    match form_of(words) {
        Some(Form::Curve(form)) => stream(alloc, &form, source, sink),
        Some(Form::Divide(form)) => divide(alloc, form, source, sink),
        Some(Form::Filter(form)) => pass(alloc, &form, source, sink),
        Some(Form::Share(form)) => stream(alloc, &form, source, sink),
        None => usage(sink, usage_bytes()),
    }
}

/// Does what `top_plan` does with the words after the program's name, and ends with the exit status that says how that ended.
/// Where memory ran out for the words, nothing is read or written, and the exit status is that of NoMemory.
pub fn run_plan<S: Source, K: Sink>(
    alloc: Global,
    words: Result<Vec<String>, NoMemory>,
    source: &mut S,
    sink: &mut K,
) -> ExitCode
    requires source { S.faults source.old < 2 ^ 64 - 1 }
    requires sink { K.faults sink.old < 2 ^ 64 - 1 }
    ensures ends { IfOk words (λ words. EndsWith words.items
        (reading_of S.left S.faults source.old source.new)
        (writing_of K.taken K.held K.faults sink.old sink.new) (exit_status result)) }
    ensures end { S.ends source.new ≤ S.ends source.old + 1 }
    ensures unread { IfOk words (λ words. form_in words.items ≡ None → source.new ≡ source.old) }
    ensures memory { OnErr words (exit_status result ≡ code_of OutOfMemory) }
    ensures untouched { OnErr words ((source.new ≡ source.old) × (sink.new ≡ sink.old)) }
{
    let status = match words {
        Ok(words) => top_plan(alloc, &words, source, sink).status,
        Err(NoMemory) => Status::NoMemory,
    };
    ExitCode::from(status.code())
}
