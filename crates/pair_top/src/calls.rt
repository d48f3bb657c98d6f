//! The top calls.
ghost use Rattle.std.specs.Prelude.{◌≡◌, ◌-◌, ◌<◌, ◌^◌, IfSome, None};
ghost use Rattle.call_rim.specs.Endings.{Ends, IsComplete, LeavesBy, call_of};
ghost use Rattle.call_rim.specs.Outside.{reading_of, writing_of};
ghost use Rattle.pair_text.specs.declared.kind.PairKind.TheVariants.{Cdp, Levels};
ghost use Rattle.pair_top.specs.Forms.{form_of as form_in, is_quiet, is_valid, usage_line};
ghost use Rattle.pair_top.specs.Refusals.{refuses};
ghost use Rattle.pair_top.specs.Reports.{Plays, reports, reports_cdp, reports_levels};
ghost use Rattle.script_ops.specs.declared.limits.TheConstants.{MOST_SCRIPT_BYTES};

use crate::ended::{CdpEnded, LevelEnded, PairEnded, pair_ended};
use crate::journals::PairJournals;
use crate::playing::PairProgram;
use crate::words::{form_of, usage_bytes};
use call_rim::{call, usage};
use rc_stream::{Sink, Source};
use std::alloc::Global;
use std::marker::PhantomData;

// The call for the kind of scripts that has these journals.
fn top<J: PairJournals, S: Source, K: Sink>(
    alloc: Global,
    words: &[String],
    source: &mut S,
    sink: &mut K,
) -> PairEnded<J>
    requires source { S.faults source.old < 2 ^ 64 - 1 }
    requires sink { K.faults sink.old < 2 ^ 64 - 1 }
    ensures ends { Ends (refuses J.kind) (reports (Plays J.kind J.run J.isolated J.listed J.report_of) (is_quiet (form_in words.now))) (call_of (is_valid (form_in words.now)) (usage_line J.kind)
        (reading_of S.left S.faults source.old source.new)
        (writing_of K.taken K.held K.faults sink.old sink.new)) result.status result.journals }
    ensures complete { IsComplete (refuses J.kind) (call_of (is_valid (form_in words.now)) (usage_line J.kind)
        (reading_of S.left S.faults source.old source.new)
        (writing_of K.taken K.held K.faults sink.old sink.new)) result.status }
    ensures leaves { IfSome (form_in words.now) (λ form. LeavesBy MOST_SCRIPT_BYTES (reading_of S.left S.faults source.old source.new) result.status) }
    ensures unread { form_in words.now ≡ None → source.new ≡ source.old }
{
    match form_of(words) {
        Some(form) => {
            let program: PairProgram<J> = PairProgram {
                quiet: form.quiet,
                of: PhantomData,
            };
            pair_ended(call(alloc, &program, source, sink))
        }
        None => pair_ended(usage(sink, usage_bytes(J::kind()))),
    }
}

/// Reads a pair script on data and code masks from the source, plays it, and writes the report of its run to the sink, without the
/// lines of the commands where the words after the program's name are `--quiet`. Where the command line is not valid, the sink gets
/// the usage line, and the source is not called. The source is read to its end, or until there is one byte more than is taken. The
/// call waits for nobody.
///
/// The status says how the call ended, as `Ends` and `IsComplete` have it: `Done` with the journals, which are a run of the script in
/// which each window isolates its side; `Refused` with the first bad line; `ReadFault` and `WriteFault` only where the source or the
/// sink failed; and `NoMemory` where memory ran out. After `WriteFault` there are journals exactly where it is their report that was
/// due.
pub fn top_cdp<S: Source, K: Sink>(
    alloc: Global,
    words: &[String],
    source: &mut S,
    sink: &mut K,
) -> CdpEnded
    requires source { S.faults source.old < 2 ^ 64 - 1 }
    requires sink { K.faults sink.old < 2 ^ 64 - 1 }
    ensures ends { Ends (refuses Cdp) (reports_cdp (is_quiet (form_in words.now))) (call_of (is_valid (form_in words.now)) (usage_line Cdp)
        (reading_of S.left S.faults source.old source.new)
        (writing_of K.taken K.held K.faults sink.old sink.new)) result.status result.journals }
    ensures complete { IsComplete (refuses Cdp) (call_of (is_valid (form_in words.now)) (usage_line Cdp)
        (reading_of S.left S.faults source.old source.new)
        (writing_of K.taken K.held K.faults sink.old sink.new)) result.status }
    ensures leaves { IfSome (form_in words.now) (λ form. LeavesBy MOST_SCRIPT_BYTES (reading_of S.left S.faults source.old source.new) result.status) }
    ensures unread { form_in words.now ≡ None → source.new ≡ source.old }
{
    top(alloc, words, source, sink)
}

/// Reads a pair script on two levels from the source, plays it, and writes the report of its run to the sink, as `top_cdp` does with
/// scripts on data and code masks. In each window of the journals the group's covered uses do at both levels what they would do
/// alone.
pub fn top_l2<S: Source, K: Sink>(
    alloc: Global,
    words: &[String],
    source: &mut S,
    sink: &mut K,
) -> LevelEnded
    requires source { S.faults source.old < 2 ^ 64 - 1 }
    requires sink { K.faults sink.old < 2 ^ 64 - 1 }
    ensures ends { Ends (refuses Levels) (reports_levels (is_quiet (form_in words.now))) (call_of (is_valid (form_in words.now)) (usage_line Levels)
        (reading_of S.left S.faults source.old source.new)
        (writing_of K.taken K.held K.faults sink.old sink.new)) result.status result.journals }
    ensures complete { IsComplete (refuses Levels) (call_of (is_valid (form_in words.now)) (usage_line Levels)
        (reading_of S.left S.faults source.old source.new)
        (writing_of K.taken K.held K.faults sink.old sink.new)) result.status }
    ensures leaves { IfSome (form_in words.now) (λ form. LeavesBy MOST_SCRIPT_BYTES (reading_of S.left S.faults source.old source.new) result.status) }
    ensures unread { form_in words.now ≡ None → source.new ≡ source.old }
{
    top(alloc, words, source, sink)
}
