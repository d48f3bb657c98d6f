//! What `filter` passes on of a trace.
ghost use Rattle.std.specs.Prelude.{◌≡◌, ◌≤◌, ◌++◌, IfSome, None};
ghost use Rattle.call_rim.specs.declared.pass_program.Passing.TheVariants.{Good, Refused};
ghost use Rattle.way_curve.specs.CurveTexts.{bad_line_text};
ghost use Rattle.way_curve.specs.FilterTexts.{IsFiltered, IsFilteredSoFar, IsFilteredToBad};
ghost use Rattle.way_curve.specs.Filters.{HasFiltered};
ghost use Rattle.way_curve.specs.declared.report_limits.TheConstants.{MOST_REFUSAL_BYTES};

use crate::filter_form::FilterForm;
use call_rim::{PassProgram, Passing};
use rc_base::{NoMemory, TextBuf};
use std::alloc::Global;
use way_curve::{BadTrace, TraceFilter, push_bad_line};

// Adds the line of a refusal, if there is one.
fn told(bad: Option<BadTrace>, out: &mut TextBuf) -> Passing
    requires { IfSome bad (λ bad. MOST_REFUSAL_BYTES ≤ out.old.spare) }
    ensures good { bad ≡ None → (result ≡ Good) × (out.new ≡ out.old) }
    ensures refused { IfSome bad (λ bad. (result ≡ Refused) × (out.new.bytes ≡ out.old.bytes ++ bad_line_text bad.line)) }
{
    match bad {
        None => Passing::Good,
        Some(bad) => {
            push_bad_line(bad, out);
            Passing::Refused
        }
    }
}

impl PassProgram for FilterForm {
    type State = TraceFilter;

    ghost has_passed = { λ levels filter bytes text. HasFiltered levels filter bytes text };

    ghost count = { λ levels filter. filter.lines.bytes };

    ghost due = { λ levels. IsFilteredSoFar levels };

    ghost refuses = { λ levels. IsFilteredToBad levels };

    ghost passes = { λ levels. IsFiltered levels };

    fn begin(&self, alloc: Global) -> Result<TraceFilter, NoMemory> {
        TraceFilter::create(alloc, self.levels())
    }

    fn take(&self, filter: &mut TraceFilter, byte: u8, out: &mut TextBuf) -> Passing {
        told(filter.take(byte, out), out)
    }

    fn finish(&self, filter: TraceFilter, out: &mut TextBuf) -> Passing {
        told(filter.finish(out), out)
    }
}
