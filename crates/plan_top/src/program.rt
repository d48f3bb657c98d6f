//! What `curve` makes of a trace that comes piece by piece.
ghost use Rattle.std.specs.Prelude.{◌≡◌, ◌+◌, ◌≤◌, ◌++◌, ℕ, List, IfOk, Err};
ghost use Rattle.call_rim.specs.Performing.{Performs};
ghost use Rattle.lackey_text.specs.declared.uses.LineUse.{LineUse as Use};
ghost use Rattle.way_curve.specs.Filtering.{HaveFiltered};
ghost use Rattle.way_curve.specs.FirstLevels.{left_by};
ghost use Rattle.way_curve.specs.Reading.{AreOf, HasRead};
ghost use Rattle.way_curve.specs.TraceTexts.{trace_of};
ghost use Rattle.way_curve.specs.CurveTexts.{bad_line_text, curves_text};
ghost use Rattle.way_curve.specs.FirstUses.{asked_first_uses};
ghost use Rattle.way_curve.specs.Samples.{sampled};
ghost use Rattle.way_curve.specs.declared.report_limits.TheConstants.{MOST_LEVELS_BYTES, MOST_REPORT_BYTES, MOST_SAMPLE_BYTES};
ghost use Rattle.plan_top.specs.Beginnings.{HasNoBadLine};
ghost use Rattle.plan_top.specs.CurveForms.{CurveWords, filtering_of};
ghost use Rattle.plan_top.specs.Plans.{RefusesTrace, reports_of};

use crate::curve_form::CurveForm;
use call_rim::{Performed, StreamProgram, Taken};
use rc_base::{NoMemory, TextBuf};
use std::alloc::Global;
use way_curve::{
    BadTrace, FilteredCurves, FirstUses, MOST_LEVELS_BYTES, MOST_REFUSAL_BYTES, MOST_REPORT_BYTES,
    MOST_SAMPLE_BYTES, Trace, push_bad_line, push_levels, push_report, push_sample,
};

// Adds the report of curves, for each number of ways that is asked for, with the first uses, if they are counted.
fn push_curves(
    form: &CurveForm,
    first: Option<FirstUses>,
    curves: &FilteredCurves,
    out: &mut TextBuf,
)
    requires { MOST_LEVELS_BYTES + MOST_SAMPLE_BYTES + MOST_REPORT_BYTES ≤ out.old.spare }
    ensures { (uses : List Use) → HaveFiltered (filtering_of form.now) curves.now uses
        → first ≡ asked_first_uses form.now.has_first (sampled form.now.one_of (left_by form.now.levels uses))
        → out.new.bytes ≡ out.old.bytes ++ curves_text form.now.levels form.now.one_of form.now.is_scaled form.now.has_first form.now.sets form.now.ways uses }
{
    push_levels(form.levels(), out);
    push_sample(form.one_of(), form.sample_sets(), out);
    push_report(curves.counted(), form.scale(), first, form.ways(), out);
}

// The report of curves.
fn report(alloc: Global, form: &CurveForm, curves: &FilteredCurves) -> Result<Vec<u8>, NoMemory>
    ensures { IfOk result (λ text. (uses : List Use) → HaveFiltered (filtering_of form.now) curves.now uses
        → text.items ≡ curves_text form.now.levels form.now.one_of form.now.is_scaled form.now.has_first form.now.sets form.now.ways uses) }
{
    let first = curves.first_uses()?;
    let mut text = TextBuf::with_room(
        alloc,
        MOST_LEVELS_BYTES + MOST_SAMPLE_BYTES + MOST_REPORT_BYTES,
    )?;
    push_curves(form, first, curves, &mut text);
    let bytes = Vec::from_slice(alloc, text.bytes())?;
    Ok(bytes)
}

// The line that refuses a trace.
fn refusal(alloc: Global, bad: BadTrace) -> Result<Vec<u8>, NoMemory>
    ensures { IfOk result (λ text. text.items ≡ bad_line_text bad.line) }
{
    let mut text = TextBuf::with_room(alloc, MOST_REFUSAL_BYTES)?;
    push_bad_line(bad, &mut text);
    let bytes = Vec::from_slice(alloc, text.bytes())?;
    Ok(bytes)
}

// The report of curves, or out of memory.
fn report_on(alloc: Global, form: &CurveForm, curves: &FilteredCurves) -> Performed<()>
    ensures { (bytes : List ℕ) → AreOf (filtering_of form.now) curves.now bytes → Performs RefusesTrace (reports_of form.now) bytes result }
{
    match report(alloc, form, curves) {
        Ok(report) => Performed::Reported {
            outcome: (),
            report,
        },
        Err(NoMemory) => Performed::NoMemory,
    }
}

// The refusal of a trace, or out of memory.
fn refuse(alloc: Global, bad: BadTrace) -> Performed<()>
    ensures { (form : CurveWords) (bytes : List ℕ) → trace_of bytes ≡ Err bad.line → Performs RefusesTrace (reports_of form) bytes result }
{
    match refusal(alloc, bad) {
        Ok(line) => Performed::Refused { line },
        Err(NoMemory) => Performed::NoMemory,
    }
}

impl StreamProgram for CurveForm {
    type State = Trace;

    type Outcome = ();

    ghost has_taken = { λ form trace bytes. HasRead (filtering_of form) trace bytes };

    ghost good_so_far = { λ form. HasNoBadLine };

    ghost count = { λ form trace. trace.bytes };

    ghost refuses = { λ form. RefusesTrace };

    ghost reports = { reports_of };

    fn begin(&self, alloc: Global) -> Result<Trace, NoMemory> {
        Trace::create(
            alloc,
            self.levels(),
            self.sample_sets(),
            self.one_of(),
            self.has_first(),
        )
    }

    fn take(&self, alloc: Global, trace: &mut Trace, piece: &[u8]) -> Taken {
        trace.take(piece);
        let Some(bad) = trace.bad_line() else {
            return Taken::More;
        };
        match refusal(alloc, bad) {
            Ok(line) => Taken::Refused { line },
            Err(NoMemory) => Taken::NoMemory,
        }
    }

    fn finish(&self, alloc: Global, trace: Trace) -> Performed<()> {
        match trace.finish() {
            Ok(curves) => report_on(alloc, self, &curves),
            Err(bad) => refuse(alloc, bad),
        }
    }
}
