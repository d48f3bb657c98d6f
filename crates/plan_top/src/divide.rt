//! What `divide` makes of a script.
ghost use Rattle.std.specs.Prelude.{◌≡◌, ◌+◌, ◌-◌, ◌<◌, ◌≤◌, ◌^◌, ℕ, List, IfOk, Ok, Err, length, true};
ghost use Rattle.call_rim.specs.Endings.{Ends, LeavesBy, call_of};
ghost use Rattle.call_rim.specs.Outside.{reading_of, writing_of};
ghost use Rattle.call_rim.specs.Performing.{Performs};
ghost use Rattle.run_law.specs.Runs.{IsRun};
ghost use Rattle.script_ops.specs.Values.{IsLawful};
ghost use Rattle.script_ops.specs.declared.limits.TheConstants.{MOST_SCRIPT_BYTES};
ghost use Rattle.top_parts.specs.Meaning.{meaning};
ghost use Rattle.way_plans.specs.Planned.{TellsComparedPlan, TellsPlan};
ghost use Rattle.plan_top.specs.Plans.{RefusesScript, ReportsPlan, TellsAsked, reports_plan};
ghost use Rattle.plan_top.specs.declared.divide_form.DivideForm.{DivideForm as Asked};
ghost use Rattle.plan_top.specs.declared.divide_form.DivideForm.TheVariants.{Apply, Report};

use crate::apply::{kept_bytes, tell_applied};
use crate::divide_form::DivideForm;
use crate::plan_form::PlanForm;
use call_rim::{Ended, Performed, Program, call};
use rc_base::NoMemory;
use rc_stream::{Sink, Source};
use run_law::Journals;
use script_ops::{MOST_SCRIPT_BYTES, Script};
use std::alloc::Global;
use step_world::play;
use top_parts::{InputError, Refusal, line_of, script_in};
use way_plans::{compared_report, comparisons_of, plan_of, plan_report};

// The text of a plan of a script by the journals of its play.
fn plan_text(
    alloc: Global,
    form: PlanForm,
    script: &Script,
    journals: &Journals,
) -> Result<Vec<u8>, NoMemory>
    requires lawful { IsLawful script.now }
    requires run { IsRun script.now journals.now }
    ensures { IfOk result (λ text. TellsPlan form.only_used script.now journals.now text.items) }
{
    let plan = plan_of(alloc, script, journals)?;
    plan_report(alloc, script, form.only_used, &plan)
}

// The same text with what each domain's plan is compared with.
fn compared_text(
    alloc: Global,
    form: PlanForm,
    script: &Script,
    journals: &Journals,
) -> Result<Vec<u8>, NoMemory>
    requires lawful { IsLawful script.now }
    requires run { IsRun script.now journals.now }
    ensures { IfOk result (λ text. TellsComparedPlan form.only_used script.now journals.now text.items) }
{
    let plan = plan_of(alloc, script, journals)?;
    let comparisons = comparisons_of(alloc, script, journals, &plan.groups)?;
    compared_report(alloc, script, form.only_used, &plan, &comparisons)
}

// What is asked of a script that was played.
fn asked_text(
    alloc: Global,
    form: PlanForm,
    script: &Script,
    journals: &Journals,
) -> Result<Vec<u8>, NoMemory>
    requires lawful { IsLawful script.now }
    requires run { IsRun script.now journals.now }
    ensures { IfOk result (λ text. TellsAsked form.compare form.only_used script.now journals.now text.items) }
{
    if form.compare {
        compared_text(alloc, form, script, journals)
    } else {
        plan_text(alloc, form, script, journals)
    }
}

// What is asked of a script, which is played.
fn played_text(alloc: Global, form: PlanForm, script: &Script) -> Result<Vec<u8>, NoMemory>
    ensures { IfOk result (λ text. (bytes : List ℕ) → meaning bytes ≡ Ok script.now → ReportsPlan (Report form) bytes text.items) }
{
    // A script that was read is lawful.
    let _threads = script.threads();
    let journals = play(alloc, script)?;
    asked_text(alloc, form, script, &journals)
}

// What is asked of a script, or out of memory.
fn tell_plan(alloc: Global, form: PlanForm, script: &Script) -> Performed<()>
    ensures { (bytes : List ℕ) → meaning bytes ≡ Ok script.now → Performs RefusesScript (reports_plan (Report form)) bytes result }
{
    match played_text(alloc, form, script) {
        Ok(report) => Performed::Reported {
            outcome: (),
            report,
        },
        Err(NoMemory) => Performed::NoMemory,
    }
}

// The line of a refusal, or out of memory.
fn refuse(alloc: Global, refusal: Refusal) -> Performed<()>
    ensures { (form : Asked) (bytes : List ℕ) → meaning bytes ≡ Err refusal → Performs RefusesScript (reports_plan form) bytes result }
{
    match line_of(alloc, refusal) {
        Ok(line) => Performed::Refused { line },
        Err(NoMemory) => Performed::NoMemory,
    }
}

// What is asked of a script, of which the bytes are kept where its text is asked for, or out of memory.
fn tell(alloc: Global, form: DivideForm, kept: &[u8], script: &Script) -> Performed<()>
    ensures { (bytes : List ℕ) → meaning bytes ≡ Ok script.now → (form ≡ Apply → kept.now ≡ bytes) → Performs RefusesScript (reports_plan form) bytes result }
{
    match form {
        DivideForm::Report(form) => tell_plan(alloc, form, script),
        DivideForm::Apply => tell_applied(alloc, kept, script),
    }
}

impl Program for DivideForm {
    type Outcome = ();

    ghost most = { λ p. MOST_SCRIPT_BYTES };

    ghost refuses = { λ p. RefusesScript };

    ghost reports = { reports_plan };

    fn most_bytes(&self) -> usize {
        MOST_SCRIPT_BYTES
    }

    fn perform(&self, alloc: Global, bytes: Vec<u8>) -> Performed<()> {
        let Ok(kept) = kept_bytes(alloc, *self, &bytes) else {
            return Performed::NoMemory;
        };
        match script_in(alloc, bytes) {
            Ok(script) => tell(alloc, *self, &kept, &script),
            Err(InputError::Bad(refusal)) => refuse(alloc, refusal),
            Err(InputError::NoMemory) => Performed::NoMemory,
        }
    }
}

/// Reads the script that the source holds, plays it by its order lines, and writes what is asked of its plan.
pub(crate) fn divide<S: Source, K: Sink>(
    alloc: Global,
    form: DivideForm,
    source: &mut S,
    sink: &mut K,
) -> Ended<()>
    requires source { S.faults source.old < 2 ^ 64 - 1 }
    requires sink { K.faults sink.old < 2 ^ 64 - 1 }
    ensures ends { (usage : List ℕ) → Ends RefusesScript (reports_plan form) (call_of true usage
        (reading_of S.left S.faults source.old source.new)
        (writing_of K.taken K.held K.faults sink.old sink.new)) result.status result.outcome }
    ensures leaves { LeavesBy MOST_SCRIPT_BYTES (reading_of S.left S.faults source.old source.new) result.status }
    ensures end { S.ends source.new ≤ S.ends source.old + 1 }
{
    call(alloc, &form, source, sink)
}
