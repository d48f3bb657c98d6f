//! The program, but for where its words and its streams come from.
ghost use Rattle.std.specs.Prelude.{◌≡◌, ◌+◌, ◌-◌, ◌<◌, ◌≤◌, ◌^◌, IfOk, OnErr, false};
ghost use Rattle.std.specs.Process.{exit_status};
ghost use Rattle.call_rim.specs.Codes.{code_of};
ghost use Rattle.call_rim.specs.Endings.{call_of};
ghost use Rattle.call_rim.specs.Outside.{reading_of, writing_of};
ghost use Rattle.call_rim.specs.declared.status.Status.TheVariants.{NoMemory as OutOfMemory};
ghost use Rattle.replay_top.specs.Endings.{EndsWith};
ghost use Rattle.replay_top.specs.Words.{form_of as form_in, is_valid as is_form, usage_line};

use crate::calls::top_replay;
use call_rim::Status;
use rc_base::NoMemory;
use rc_stream::{Sink, Source};
use std::alloc::Global;
use std::process::ExitCode;

/// Does what `top_replay` does with the words after the program's name, and ends with the exit status that says how that ended. Where
/// memory ran out for the words, nothing is read or written, and the exit status is that of NoMemory.
pub fn run_replayer<S: Source, K: Sink>(
    alloc: Global,
    words: Result<Vec<String>, NoMemory>,
    source: &mut S,
    sink: &mut K,
) -> ExitCode
    requires source { S.faults source.old < 2 ^ 64 - 1 }
    requires sink { K.faults sink.old < 2 ^ 64 - 1 }
    ensures ends { IfOk words (λ words. EndsWith (form_in words.items) (call_of (is_form words.items) usage_line
        (reading_of S.left S.faults source.old source.new)
        (writing_of K.taken K.held K.faults sink.old sink.new)) (exit_status result)) }
    ensures end { S.ends source.new ≤ S.ends source.old + 1 }
    ensures unread { IfOk words (λ words. is_form words.items ≡ false → source.new ≡ source.old) }
    ensures memory { OnErr words (exit_status result ≡ code_of OutOfMemory) }
    ensures untouched { OnErr words ((source.new ≡ source.old) × (sink.new ≡ sink.old)) }
{
    let code = match words {
        Ok(words) => top_replay(alloc, &words, source, sink).code(),
        Err(NoMemory) => Status::NoMemory.code(),
    };
    ExitCode::from(code)
}
