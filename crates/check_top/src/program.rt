//! The program, but for where its words and its streams come from.
ghost use Rattle.std.specs.Prelude.{◌≡◌, ◌-◌, ◌<◌, ◌^◌, IfOk, None, OnErr};
ghost use Rattle.std.specs.Process.{exit_status};
ghost use Rattle.call_rim.specs.Outside.{reading_of, writing_of};
ghost use Rattle.check_parts.specs.Forms.{form_of as form_in};
ghost use Rattle.check_top.specs.Codes.{EndsWith};
ghost use Rattle.check_top.specs.Statuses.{code_of};
ghost use Rattle.check_top.specs.declared.status.CheckStatus.TheVariants.{NoMemory as OutOfMemory};

use crate::calls::{check_top, judge_source};
use crate::status::CheckStatus;
use check_parts::{Form, form_of};
use rc_base::NoMemory;
use rc_stream::{Gate, Sink, Source};
use std::alloc::Global;
use std::process::ExitCode;
use std::sync::Wait;
use std::thread::Threads;

// The status of what `check_top` does. The journals of a check are not handed back, and so not all of them are kept.
fn status_of_call<R: Threads + Wait + Sync, S: Source, K: Sink, G: Gate>(
    rt: &R,
    alloc: Global,
    words: &[String],
    source: &mut S,
    sink: &mut K,
    gate: &G,
) -> CheckStatus
    requires source { S.faults source.old < 2 ^ 64 - 1 }
    requires sink { K.faults sink.old < 2 ^ 64 - 1 }
    ensures ends { EndsWith (form_in words.now)
        (reading_of S.left S.faults source.old source.new)
        (writing_of K.taken K.held K.faults sink.old sink.new) (code_of result) }
    ensures unread { form_in words.now ≡ None → source.new ≡ source.old }
{
    match form_of(words) {
        Some(Form::Check) => judge_source(alloc, source, sink),
        _ => check_top(rt, alloc, words, source, sink, gate).status,
    }
}

/// Does what `check_top` does with the words after the program's name, and ends with the exit status that says how that ended. Where
/// memory ran out for the words, nothing is read or written, and the exit status is that of NoMemory.
pub fn run_check<R: Threads + Wait + Sync, S: Source, K: Sink, G: Gate>(
    rt: &R,
    alloc: Global,
    words: Result<Vec<String>, NoMemory>,
    source: &mut S,
    sink: &mut K,
    gate: &G,
) -> ExitCode
    requires source { S.faults source.old < 2 ^ 64 - 1 }
    requires sink { K.faults sink.old < 2 ^ 64 - 1 }
    ensures ends { IfOk words (λ words. EndsWith (form_in words.items)
        (reading_of S.left S.faults source.old source.new)
        (writing_of K.taken K.held K.faults sink.old sink.new) (exit_status result)) }
    ensures unread { IfOk words (λ words. form_in words.items ≡ None → source.new ≡ source.old) }
    ensures memory { OnErr words (exit_status result ≡ code_of OutOfMemory) }
    ensures untouched { OnErr words ((source.new ≡ source.old) × (sink.new ≡ sink.old)) }
{
    let status = match words {
        Ok(words) => status_of_call(rt, alloc, &words, source, sink, gate),
        Err(NoMemory) => CheckStatus::NoMemory,
    };
    ExitCode::from(status.code())
}
