//! What `divide` asks for.

use crate::plan_form::PlanForm;

/// What `divide` asks for of the plan of a script.
#[derive(Clone, Copy, Debug, PartialEq, Eq)]
pub enum DivideForm {
    /// `[--compare] [--used]`: the report of the plan.
    Report(PlanForm),
    /// `--apply`: the script with its plan.
    Apply,
}
