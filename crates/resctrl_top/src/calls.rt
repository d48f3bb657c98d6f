//! The top calls.
ghost use Rattle.std.specs.Prelude.{◌≡◌, ◌-◌, ◌<◌, ◌≤◌, ◌^◌, Some, None, false, true};
ghost use Rattle.call_rim.specs.Endings.{Says};
ghost use Rattle.call_rim.specs.Outside.{Reading, reading_of, writing_of};
ghost use Rattle.call_rim.specs.declared.status.Status.TheVariants.{Usage};
ghost use Rattle.resctrl_top.specs.Endings.{Ends, IsComplete, call_of};
ghost use Rattle.top_parts.specs.Forms.{IsInRange, form_of as form_in, is_of_source, reads_source, usage_line};
ghost use Rattle.top_parts.specs.declared.command.Command.TheVariants.{Gen, Run};

use crate::ended::{Ended, with_journals};
use crate::live::call_live;
use crate::playing::play_trace;
use crate::programs::StepProgram;
use call_rim::{call, tell};
use rc_stream::{Gate, Sink, Source};
use run_law::Journals;
use std::alloc::Global;
use std::sync::Wait;
use std::thread::Threads;
use top_parts::{Command, Form, form_of, usage};
use trace_gen::MOST_THREAD_ACCESSES;

// Plays the script that the source holds, by its order lines.
fn step_source<S: Source, K: Sink>(alloc: Global, form: Form, source: &mut S, sink: &mut K) -> Ended
    requires command { is_of_source form.command ≡ true }
    requires source { S.faults source.old < 2 ^ 64 - 1 }
    requires sink { K.faults sink.old < 2 ^ 64 - 1 }
    ensures ends { Ends (call_of (Some form)
        (reading_of S.left S.faults source.old source.new)
        (writing_of K.taken K.held K.faults sink.old sink.new)) result.status result.journals }
    ensures complete { IsComplete (call_of (Some form)
        (reading_of S.left S.faults source.old source.new)
        (writing_of K.taken K.held K.faults sink.old sink.new)) result.status }
{
    with_journals(call(alloc, &StepProgram { form }, source, sink))
}

// Plays the script that the source holds, with a worker for each thread.
fn run_source<R: Threads + Wait + Sync, S: Source, K: Sink, G: Gate>(
    rt: &R,
    alloc: Global,
    form: Form,
    source: &mut S,
    sink: &mut K,
    gate: &G,
) -> Ended
    requires command { form.command ≡ Run }
    requires source { S.faults source.old < 2 ^ 64 - 1 }
    requires sink { K.faults sink.old < 2 ^ 64 - 1 }
    ensures ends { Ends (call_of (Some form)
        (reading_of S.left S.faults source.old source.new)
        (writing_of K.taken K.held K.faults sink.old sink.new)) result.status result.journals }
    ensures complete { IsComplete (call_of (Some form)
        (reading_of S.left S.faults source.old source.new)
        (writing_of K.taken K.held K.faults sink.old sink.new)) result.status }
{
    with_journals(call_live(rt, alloc, form, source, sink, gate))
}

// Plays the script that the generator makes of a number, and calls no source.
fn step_trace<K: Sink>(alloc: Global, form: Form, n: u32, sink: &mut K) -> Ended
    requires command { form.command ≡ Gen n }
    requires low { 1 ≤ n }
    requires high { n ≤ MOST_THREAD_ACCESSES }
    requires sink { K.faults sink.old < 2 ^ 64 - 1 }
    ensures ends { (source : Reading) → source.left_now ≡ source.left → source.faults_now ≡ source.faults → Ends (call_of (Some form) source
        (writing_of K.taken K.held K.faults sink.old sink.new)) result.status result.journals }
    ensures complete { (source : Reading) → source.left_now ≡ source.left → source.faults_now ≡ source.faults → IsComplete (call_of (Some form) source
        (writing_of K.taken K.held K.faults sink.old sink.new)) result.status }
{
    with_journals(tell(play_trace(alloc, form, n), sink))
}

// Plays what a form asks for, by its order lines.
fn obey<S: Source, K: Sink>(alloc: Global, form: Form, source: &mut S, sink: &mut K) -> Ended
    requires source { S.faults source.old < 2 ^ 64 - 1 }
    requires sink { K.faults sink.old < 2 ^ 64 - 1 }
    requires range { IsInRange form.command }
    ensures ends { Ends (call_of (Some form)
        (reading_of S.left S.faults source.old source.new)
        (writing_of K.taken K.held K.faults sink.old sink.new)) result.status result.journals }
    ensures complete { IsComplete (call_of (Some form)
        (reading_of S.left S.faults source.old source.new)
        (writing_of K.taken K.held K.faults sink.old sink.new)) result.status }
    ensures unread { reads_source (Some form) ≡ false → source.new ≡ source.old }
{
    match form.command {
        Command::Step | Command::Run => step_source(alloc, form, source, sink),
        Command::Gen(n) => step_trace(alloc, form, n, sink),
    }
}

// Writes the usage line, as the rim has it.
fn tell_usage<K: Sink>(sink: &mut K) -> call_rim::Ended<Journals>
    requires { K.faults sink.old < 2 ^ 64 - 1 }
    ensures { Says Usage None usage_line
        (writing_of K.taken K.held K.faults sink.old sink.new) result.status result.outcome }
{
    call_rim::usage(sink, usage())
}

// Writes the usage line.
fn refuse_words<K: Sink>(sink: &mut K) -> Ended
    requires { K.faults sink.old < 2 ^ 64 - 1 }
    ensures ends { (source : Reading) → source.left_now ≡ source.left → source.faults_now ≡ source.faults → Ends (call_of None source
        (writing_of K.taken K.held K.faults sink.old sink.new)) result.status result.journals }
    ensures complete { (source : Reading) → source.left_now ≡ source.left → source.faults_now ≡ source.faults → IsComplete (call_of None source
        (writing_of K.taken K.held K.faults sink.old sink.new)) result.status }
{
    with_journals(tell_usage(sink))
}

/// Plays a script, writes its report to the sink and flushes it, and waits for nobody. The words are those after the program's
/// name: `step` plays the script that the source holds, `gen N` the one that the generator makes of the number, `run` is played as
/// `step` is, and the flags say what the report holds. Where the command line is not valid, the sink gets the usage line. `gen` does
/// not call the source; the others read it to its end, or until they have one byte more than a script may have.
///
/// The status says how the call ended, as `Ends` and `IsComplete` have it: `Done` with the journals of the run, `Refused` with
/// the first bad line, `ReadFault` and `WriteFault` only where the source or the sink failed, and `NoMemory` where memory ran
/// out.
pub fn top_step<S: Source, K: Sink>(
    alloc: Global,
    words: &[String],
    source: &mut S,
    sink: &mut K,
) -> Ended
    requires source { S.faults source.old < 2 ^ 64 - 1 }
    requires sink { K.faults sink.old < 2 ^ 64 - 1 }
    ensures ends { Ends (call_of (form_in words.now)
        (reading_of S.left S.faults source.old source.new)
        (writing_of K.taken K.held K.faults sink.old sink.new)) result.status result.journals }
    ensures complete { IsComplete (call_of (form_in words.now)
        (reading_of S.left S.faults source.old source.new)
        (writing_of K.taken K.held K.faults sink.old sink.new)) result.status }
    ensures unread { reads_source (form_in words.now) ≡ false → source.new ≡ source.old }
{
    match form_of(words) {
        Some(form) => obey(alloc, form, source, sink),
        None => refuse_words(sink),
    }
}

/// All that the program does with the words after its name. Where the first of them is `run` and the command line is valid, it plays
/// the script that the source holds with a worker for each thread of a phase, and each worker calls the gate with each op; it waits
/// for locks and for workers then, and what is promised holds if it returns. For all other words it does what `top_step` does, and
/// waits for nobody.
///
/// The status says how the call ended, as for `top_step`. Whatever order the workers took the locks in, the journals of a `run` are a
/// legal run of the script that isolates groups and holds regions, and the play of the script by some order lists; and the bytes that
/// were written are their report.
pub fn top<R: Threads + Wait + Sync, S: Source, K: Sink, G: Gate>(
    rt: &R,
    alloc: Global,
    words: &[String],
    source: &mut S,
    sink: &mut K,
    gate: &G,
) -> Ended
    requires source { S.faults source.old < 2 ^ 64 - 1 }
    requires sink { K.faults sink.old < 2 ^ 64 - 1 }
    ensures ends { Ends (call_of (form_in words.now)
        (reading_of S.left S.faults source.old source.new)
        (writing_of K.taken K.held K.faults sink.old sink.new)) result.status result.journals }
    ensures complete { IsComplete (call_of (form_in words.now)
        (reading_of S.left S.faults source.old source.new)
        (writing_of K.taken K.held K.faults sink.old sink.new)) result.status }
    ensures unread { reads_source (form_in words.now) ≡ false → source.new ≡ source.old }
{
    match form_of(words) {
        Some(form) => match form.command {
            Command::Run => run_source(rt, alloc, form, source, sink, gate),
            Command::Step | Command::Gen(_) => obey(alloc, form, source, sink),
        },
        None => refuse_words(sink),
    }
}
