//! The programs, but for where their words and their streams come from.
ghost use Rattle.std.specs.Prelude.{◌≡◌, ◌-◌, ◌<◌, ◌^◌, IfOk, None, OnErr};
ghost use Rattle.std.specs.Process.{exit_status};
ghost use Rattle.call_rim.specs.Codes.{code_of};
ghost use Rattle.call_rim.specs.Endings.{call_of};
ghost use Rattle.call_rim.specs.Outside.{reading_of, writing_of};
ghost use Rattle.call_rim.specs.declared.status.Status.TheVariants.{NoMemory as OutOfMemory};
ghost use Rattle.pair_text.specs.declared.kind.PairKind.TheVariants.{Cdp, Levels};
ghost use Rattle.pair_top.specs.Endings.{EndsWith};
ghost use Rattle.pair_top.specs.Forms.{form_of as form_in, is_quiet, is_valid, usage_line};
ghost use Rattle.pair_top.specs.Reports.{reports_cdp, reports_levels};

use crate::calls::{top_cdp, top_l2};
use call_rim::Status;
use rc_base::NoMemory;
use rc_stream::{Sink, Source};
use std::alloc::Global;
use std::process::ExitCode;

/// Does what `top_cdp` does with the words after the program's name, and ends with the exit status that says how that ended. Where
/// memory ran out for the words, nothing is read or written, and the exit status is that of NoMemory.
pub fn run_cdp<S: Source, K: Sink>(
    alloc: Global,
    words: Result<Vec<String>, NoMemory>,
    source: &mut S,
    sink: &mut K,
) -> ExitCode
    requires source { S.faults source.old < 2 ^ 64 - 1 }
    requires sink { K.faults sink.old < 2 ^ 64 - 1 }
    ensures ends { IfOk words (λ words. EndsWith Cdp (reports_cdp (is_quiet (form_in words.items))) (call_of (is_valid (form_in words.items)) (usage_line Cdp)
        (reading_of S.left S.faults source.old source.new)
        (writing_of K.taken K.held K.faults sink.old sink.new)) (exit_status result)) }
    ensures unread { IfOk words (λ words. form_in words.items ≡ None → source.new ≡ source.old) }
    ensures memory { OnErr words (exit_status result ≡ code_of OutOfMemory) }
    ensures untouched { OnErr words ((source.new ≡ source.old) × (sink.new ≡ sink.old)) }
{
    let status = match words {
        Ok(words) => top_cdp(alloc, &words, source, sink).status,
        Err(NoMemory) => Status::NoMemory,
    };
    ExitCode::from(status.code())
}

/// Does what `top_l2` does with the words after the program's name, and ends with the exit status that says how that ended. Where
/// memory ran out for the words, nothing is read or written, and the exit status is that of NoMemory.
pub fn run_l2<S: Source, K: Sink>(
    alloc: Global,
    words: Result<Vec<String>, NoMemory>,
    source: &mut S,
    sink: &mut K,
) -> ExitCode
    requires source { S.faults source.old < 2 ^ 64 - 1 }
    requires sink { K.faults sink.old < 2 ^ 64 - 1 }
    ensures ends { IfOk words (λ words. EndsWith Levels (reports_levels (is_quiet (form_in words.items))) (call_of (is_valid (form_in words.items)) (usage_line Levels)
        (reading_of S.left S.faults source.old source.new)
        (writing_of K.taken K.held K.faults sink.old sink.new)) (exit_status result)) }
    ensures unread { IfOk words (λ words. form_in words.items ≡ None → source.new ≡ source.old) }
    ensures memory { OnErr words (exit_status result ≡ code_of OutOfMemory) }
    ensures untouched { OnErr words ((source.new ≡ source.old) × (sink.new ≡ sink.old)) }
{
    let status = match words {
        Ok(words) => top_l2(alloc, &words, source, sink).status,
        Err(NoMemory) => Status::NoMemory,
    };
    ExitCode::from(status.code())
}
