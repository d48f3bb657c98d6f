//! The law of what is read of a plan.
ghost use Rattle.plan_reading.specs.PlanReading.{PlansReadBack};

use crate::theorems::phases_read_back;
use way_plans::command_theorems::lines_are_commands;

/// The text of a script with its plan is read as the script with one more phase, whose one thread has the commands of the plan and
/// nothing else; the names, and so their numbers, are those of the script.
pub fn lines_read_back()
    ensures { PlansReadBack }
{
    lines_are_commands();
    phases_read_back();
}
