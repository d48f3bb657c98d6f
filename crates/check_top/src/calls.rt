//! The top call.
ghost use Rattle.std.specs.Prelude.{◌≡◌, ◌-◌, ◌<◌, ◌^◌, Some, None, true};
ghost use Rattle.call_rim.specs.Endings as rim;
ghost use Rattle.call_rim.specs.Endings.{LeavesBy};
ghost use Rattle.call_rim.specs.Outside.{Reading, reading_of, writing_of};
ghost use Rattle.call_rim.specs.Within.{RefusesWithin, ReportsWithin};
ghost use Rattle.check_parts.specs.Forms.{form_of as form_in, usage_line};
ghost use Rattle.check_parts.specs.declared.form.Form.TheVariants.{Check, Export};
ghost use Rattle.check_parts.specs.declared.form.Play.TheVariants.{Run};
ghost use Rattle.check_top.specs.Codes.{EndsWith};
ghost use Rattle.check_top.specs.Endings.{Ends, IsExported, Refuses};
ghost use Rattle.check_top.specs.Statuses.{code_of};
ghost use Rattle.script_ops.specs.declared.limits.TheConstants.{MOST_SCRIPT_BYTES};

use crate::checked::Checked;
use crate::ended::{CheckEnded, checked, judged};
use crate::exporting::run_bytes;
use crate::programs::{CheckProgram, ExportProgram, JudgeProgram};
use crate::status::CheckStatus;
use call_rim::{ReadError, Status, call, call_early, read_all, tell, usage, without_outcome};
use check_parts::{Form, Play, form_of, usage_bytes};
use rc_stream::{Gate, Sink, Source};
use script_ops::MOST_SCRIPT_BYTES;
use std::alloc::Global;
use std::sync::Wait;
use std::thread::Threads;

// Exports the script that the source holds, played by its order lines.
fn export_step<S: Source, K: Sink>(
    alloc: Global,
    play: Play,
    source: &mut S,
    sink: &mut K,
) -> CheckEnded
    requires source { S.faults source.old < 2 ^ 64 - 1 }
    requires sink { K.faults sink.old < 2 ^ 64 - 1 }
    ensures { Ends (Some (Export play))
        (reading_of S.left S.faults source.old source.new)
        (writing_of K.taken K.held K.faults sink.old sink.new) result }
{
    checked(call(alloc, &ExportProgram { play }, source, sink))
}

// Exports the script that the source holds, played with a worker for each thread, as the rim has it.
fn call_live<R: Threads + Wait + Sync, S: Source, K: Sink, G: Gate>(
    rt: &R,
    alloc: Global,
    source: &mut S,
    sink: &mut K,
    gate: &G,
) -> call_rim::Ended<Checked>
    requires source { S.faults source.old < 2 ^ 64 - 1 }
    requires sink { K.faults sink.old < 2 ^ 64 - 1 }
    ensures ends { rim.Ends (RefusesWithin MOST_SCRIPT_BYTES (Refuses (Export Run))) (ReportsWithin MOST_SCRIPT_BYTES (IsExported Run)) (rim.call_of true usage_line
        (reading_of S.left S.faults source.old source.new)
        (writing_of K.taken K.held K.faults sink.old sink.new)) result.status result.outcome }
    ensures leaves { LeavesBy MOST_SCRIPT_BYTES (reading_of S.left S.faults source.old source.new) result.status }
{
    match read_all(alloc, source, MOST_SCRIPT_BYTES) {
        Ok(bytes) => tell(run_bytes(rt, alloc, bytes, gate), sink),
        Err(ReadError::Failed) => without_outcome(Status::ReadFault),
        Err(ReadError::NoMemory) => without_outcome(Status::NoMemory),
    }
}

// Exports the script that the source holds, played with a worker for each thread.
fn export_run<R: Threads + Wait + Sync, S: Source, K: Sink, G: Gate>(
    rt: &R,
    alloc: Global,
    source: &mut S,
    sink: &mut K,
    gate: &G,
) -> CheckEnded
    requires source { S.faults source.old < 2 ^ 64 - 1 }
    requires sink { K.faults sink.old < 2 ^ 64 - 1 }
    ensures { Ends (Some (Export Run))
        (reading_of S.left S.faults source.old source.new)
        (writing_of K.taken K.held K.faults sink.old sink.new) result }
{
    checked(call_live(rt, alloc, source, sink, gate))
}

// Checks the journals that the source holds after a script.
fn check_source<S: Source, K: Sink>(alloc: Global, source: &mut S, sink: &mut K) -> CheckEnded
    requires source { S.faults source.old < 2 ^ 64 - 1 }
    requires sink { K.faults sink.old < 2 ^ 64 - 1 }
    ensures { Ends (Some Check)
        (reading_of S.left S.faults source.old source.new)
        (writing_of K.taken K.held K.faults sink.old sink.new) result }
{
    checked(call_early(alloc, &CheckProgram, source, sink))
}

/// Does what `check` does with the source, and hands back nothing of the journals: of commands that no run goes on with none is kept.
pub(crate) fn judge_source<S: Source, K: Sink>(
    alloc: Global,
    source: &mut S,
    sink: &mut K,
) -> CheckStatus
    requires source { S.faults source.old < 2 ^ 64 - 1 }
    requires sink { K.faults sink.old < 2 ^ 64 - 1 }
    ensures { EndsWith (Some Check)
        (reading_of S.left S.faults source.old source.new)
        (writing_of K.taken K.held K.faults sink.old sink.new) (code_of result) }
{
    judged(call_early(alloc, &JudgeProgram, source, sink))
}

// Writes the usage line, and calls no source.
fn refuse_words<K: Sink>(sink: &mut K) -> CheckEnded
    requires { K.faults sink.old < 2 ^ 64 - 1 }
    ensures { (source : Reading) → source.left_now ≡ source.left → source.faults_now ≡ source.faults → Ends None source
        (writing_of K.taken K.held K.faults sink.old sink.new) result }
{
    checked(usage(sink, usage_bytes()))
}

/// Does what `check_top` does, and waits for nobody: `export run` is played as `export step` is.
pub fn check_step<S: Source, K: Sink>(
    alloc: Global,
    words: &[String],
    source: &mut S,
    sink: &mut K,
) -> CheckEnded
    requires source { S.faults source.old < 2 ^ 64 - 1 }
    requires sink { K.faults sink.old < 2 ^ 64 - 1 }
    ensures ends { Ends (form_in words.now)
        (reading_of S.left S.faults source.old source.new)
        (writing_of K.taken K.held K.faults sink.old sink.new) result }
    ensures unread { form_in words.now ≡ None → source.new ≡ source.old }
{
    match form_of(words) {
        Some(Form::Export(play)) => export_step(alloc, play, source, sink),
        Some(Form::Check) => check_source(alloc, source, sink),
        None => refuse_words(sink),
    }
}

/// Does what the words after the program's name ask for. `export step` and `export run` read a script from the source, play it by its
/// order lines or with a worker for each thread of a phase, and write to the sink the script's bytes, a newline where the last line
/// lacks it, and the journals of the play. `check` reads such a text, whoever made it, and writes `yes` where the journals are a run of
/// the script, and otherwise `no` with the word for the first clause that is false. Where the command line is not valid, the sink gets
/// the usage line, and the source is not called. The source is read to its end, or until there is one byte more than is taken. Only
/// `export run` waits, for locks and for workers, each of which calls the gate with each op; what is promised holds if it returns. Its
/// journals are those of the play of the script by some order lists, whatever order the workers took the locks in.
///
/// The status says how the call ended, as `Ends` has it: `Done` with the journals that were exported or that are a
/// run, `No` with journals that are none, `Refused` with what is wrong with the input, `ReadFault` and `WriteFault` only where the
/// source or the sink failed, and `NoMemory` where memory ran out.
pub fn check_top<R: Threads + Wait + Sync, S: Source, K: Sink, G: Gate>(
    rt: &R,
    alloc: Global,
    words: &[String],
    source: &mut S,
    sink: &mut K,
    gate: &G,
) -> CheckEnded
    requires source { S.faults source.old < 2 ^ 64 - 1 }
    requires sink { K.faults sink.old < 2 ^ 64 - 1 }
    ensures ends { Ends (form_in words.now)
        (reading_of S.left S.faults source.old source.new)
        (writing_of K.taken K.held K.faults sink.old sink.new) result }
    ensures unread { form_in words.now ≡ None → source.new ≡ source.old }
{
    match form_of(words) {
        Some(Form::Export(Play::Step)) => export_step(alloc, Play::Step, source, sink),
        Some(Form::Export(Play::Run)) => export_run(rt, alloc, source, sink, gate),
        Some(Form::Check) => check_source(alloc, source, sink),
        None => refuse_words(sink),
    }
}
