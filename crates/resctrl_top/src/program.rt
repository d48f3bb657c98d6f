//! The program, but for where its words and its streams come from.
ghost use Rattle.std.specs.Prelude.{◌≡◌, ◌-◌, ◌<◌, ◌^◌, IfOk, OnErr, false};
ghost use Rattle.std.specs.Process.{exit_status};
ghost use Rattle.call_rim.specs.Codes.{code_of};
ghost use Rattle.call_rim.specs.Outside.{reading_of, writing_of};
ghost use Rattle.call_rim.specs.declared.status.Status.TheVariants.{NoMemory as OutOfMemory};
ghost use Rattle.resctrl_top.specs.Codes.{EndsWith};
ghost use Rattle.resctrl_top.specs.Endings.{call_of};
ghost use Rattle.top_parts.specs.Forms.{form_of as form_in, reads_source};

use crate::calls::top;
use call_rim::Status;
use rc_base::NoMemory;
use rc_stream::{Gate, Sink, Source};
use std::alloc::Global;
use std::process::ExitCode;
use std::sync::Wait;
use std::thread::Threads;

/// Does what `top` does with the words after the program's name, and ends with the exit status that says how that ended. Where
/// memory ran out for the words, nothing is read or written, and the exit status is that of NoMemory.
pub fn run_program<R: Threads + Wait + Sync, S: Source, K: Sink, G: Gate>(
    rt: &R,
    alloc: Global,
    words: Result<Vec<String>, NoMemory>,
    source: &mut S,
    sink: &mut K,
    gate: &G,
) -> ExitCode
    requires source { S.faults source.old < 2 ^ 64 - 1 }
    requires sink { K.faults sink.old < 2 ^ 64 - 1 }
    ensures ends { IfOk words (λ words. EndsWith (call_of (form_in words.items)
        (reading_of S.left S.faults source.old source.new)
        (writing_of K.taken K.held K.faults sink.old sink.new)) (exit_status result)) }
    ensures unread { IfOk words (λ words. reads_source (form_in words.items) ≡ false → source.new ≡ source.old) }
    ensures memory { OnErr words (exit_status result ≡ code_of OutOfMemory) }
    ensures untouched { OnErr words ((source.new ≡ source.old) × (sink.new ≡ sink.old)) }
{
    let status = match words {
        Ok(words) => top(rt, alloc, &words, source, sink, gate).status,
        Err(NoMemory) => Status::NoMemory,
    };
    ExitCode::from(status.code())
}
