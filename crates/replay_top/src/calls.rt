//! The top call.
ghost use Rattle.std.specs.Prelude.{◌≡◌, ◌+◌, ◌-◌, ◌<◌, ◌≤◌, ◌^◌, Some, false, true};
ghost use Rattle.call_rim.specs.Endings.{Ends, LeavesBy, call_of};
ghost use Rattle.call_rim.specs.Outside.{reading_of, writing_of};
ghost use Rattle.check_parts.specs.declared.limits.TheConstants.{MOST_CHECK_BYTES};
ghost use Rattle.replay_top.specs.Endings.{IsComplete};
ghost use Rattle.replay_top.specs.Reports.{refuses, reports};
ghost use Rattle.replay_top.specs.Words.{form_of as form_in, is_valid as is_form, usage_line};

use crate::ended::{ReplayEnded, replay_ended};
use crate::form::ReplayForm;
use crate::replaying::OrderProgram;
use crate::reporting::ReportProgram;
use crate::words::{form_of, usage_bytes};
use call_rim::{call, usage};
use journal_text::theorems::texts_read_back;
use rc_stream::{Sink, Source};
use run_law::theorems::runs_by_clauses;
use std::alloc::Global;

// Reads the source to its end, and writes what a form asks for.
fn obey<S: Source, K: Sink>(
    alloc: Global,
    form: ReplayForm,
    source: &mut S,
    sink: &mut K,
) -> ReplayEnded
    requires source { S.faults source.old < 2 ^ 64 - 1 }
    requires sink { K.faults sink.old < 2 ^ 64 - 1 }
    ensures ends { Ends refuses (reports (Some form)) (call_of true usage_line
        (reading_of S.left S.faults source.old source.new)
        (writing_of K.taken K.held K.faults sink.old sink.new)) result.status result.outcome }
    ensures leaves { LeavesBy MOST_CHECK_BYTES (reading_of S.left S.faults source.old source.new) result.status }
    ensures end { S.ends source.new ≤ S.ends source.old + 1 }
{
    match form {
        ReplayForm::Order => replay_ended(call(alloc, &OrderProgram, source, sink)),
        ReplayForm::Report(flags) => {
            replay_ended(call(alloc, &ReportProgram { flags }, source, sink))
        }
    }
}

/// Reads a script with journals from the source, whoever made them, and writes what the words after the program's name ask for to the
/// sink. `order` finds an order of all steps, and writes the script with that order: the play of what is written has just these
/// journals. `report` writes the report that the simulator would write of a run with these journals. Where the journals are no run, the
/// sink gets the line `no` with the first clause that is false, and where no order was found, `no order` with the steps that wait for
/// one another. Where the command line is not valid, the sink gets the usage line, and the source is not called. The source is read to
/// its end, or until there is one byte more than is taken. The call waits for nobody.
///
/// The status says how the call ended, as `Ends` and `IsComplete` have it: `Done` with what was found, `Refused` with what is wrong
/// with the input, `ReadFault` and `WriteFault` only where the source or the sink failed, and `NoMemory` where memory ran out.
pub fn top_replay<S: Source, K: Sink>(
    alloc: Global,
    words: &[String],
    source: &mut S,
    sink: &mut K,
) -> ReplayEnded
    requires source { S.faults source.old < 2 ^ 64 - 1 }
    requires sink { K.faults sink.old < 2 ^ 64 - 1 }
    ensures ends { Ends refuses (reports (form_in words.now)) (call_of (is_form words.now) usage_line
        (reading_of S.left S.faults source.old source.new)
        (writing_of K.taken K.held K.faults sink.old sink.new)) result.status result.outcome }
    ensures complete { IsComplete (call_of (is_form words.now) usage_line
        (reading_of S.left S.faults source.old source.new)
        (writing_of K.taken K.held K.faults sink.old sink.new)) result.status result.outcome }
    ensures leaves { is_form words.now ≡ true → LeavesBy MOST_CHECK_BYTES (reading_of S.left S.faults source.old source.new) result.status }
    ensures end { S.ends source.new ≤ S.ends source.old + 1 }
    ensures unread { is_form words.now ≡ false → source.new ≡ source.old }
{
    texts_read_back();
    runs_by_clauses();
    match form_of(words) {
        Some(form) => obey(alloc, form, source, sink),
        None => replay_ended(usage(sink, usage_bytes())),
    }
}
