//! What `divide --apply` makes of a script.
ghost use Rattle.std.specs.Prelude.{◌≡◌, ℕ, List, IfOk, Ok};
ghost use Rattle.call_rim.specs.Performing.{Performs};
ghost use Rattle.run_law.specs.Runs.{IsRun};
ghost use Rattle.script_ops.specs.Values.{IsLawful};
ghost use Rattle.top_parts.specs.Meaning.{meaning};
ghost use Rattle.way_plans.specs.AppliedTexts.{TellsAppliedPlan};
ghost use Rattle.plan_top.specs.Plans.{RefusesScript, ReportsPlan, reports_plan};
ghost use Rattle.plan_top.specs.declared.divide_form.DivideForm.TheVariants.{Apply};

use crate::divide_form::DivideForm;
use call_rim::Performed;
use rc_base::NoMemory;
use run_law::Journals;
use script_ops::Script;
use std::alloc::Global;
use step_world::play;
use way_plans::{applied_plan, plan_of};

/// The bytes of a script, where its text is asked for: the reader of a script lets go of them.
pub(crate) fn kept_bytes(alloc: Global, form: DivideForm, bytes: &[u8]) -> Result<Vec<u8>, NoMemory>
    ensures { IfOk result (λ kept. form ≡ Apply → kept.items ≡ bytes.now) }
{
    match form {
        DivideForm::Report(_) => Ok(Vec::new(alloc)),
        DivideForm::Apply => {
            let kept = Vec::from_slice(alloc, bytes)?;
            Ok(kept)
        }
    }
}

// The text of a script with its plan by the journals of its play.
fn planned_text(
    alloc: Global,
    bytes: &[u8],
    script: &Script,
    journals: &Journals,
) -> Result<Vec<u8>, NoMemory>
    requires lawful { IsLawful script.now }
    requires run { IsRun script.now journals.now }
    ensures { IfOk result (λ text. TellsAppliedPlan script.now journals.now bytes.now text.items) }
{
    let plan = plan_of(alloc, script, journals)?;
    applied_plan(alloc, script, bytes, &plan)
}

// The text of a script with its plan; the script is played.
fn played_text(alloc: Global, kept: &[u8], script: &Script) -> Result<Vec<u8>, NoMemory>
    ensures { IfOk result (λ text. (bytes : List ℕ) → meaning bytes ≡ Ok script.now → kept.now ≡ bytes → ReportsPlan Apply bytes text.items) }
{
    // A script that was read is lawful.
    let _threads = script.threads();
    let journals = play(alloc, script)?;
    planned_text(alloc, kept, script, &journals)
}

/// The text of a script, of which these are the bytes, with its plan, or out of memory.
pub(crate) fn tell_applied(alloc: Global, kept: &[u8], script: &Script) -> Performed<()>
    ensures { (bytes : List ℕ) → meaning bytes ≡ Ok script.now → kept.now ≡ bytes → Performs RefusesScript (reports_plan Apply) bytes result }
{
    match played_text(alloc, kept, script) {
        Ok(report) => Performed::Reported {
            outcome: (),
            report,
        },
        Err(NoMemory) => Performed::NoMemory,
    }
}
