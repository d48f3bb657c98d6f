//! Laws of the lines that are printed of a plan.
ghost use Rattle.way_plans.specs.PlanCommands.{LinesAreCommands, PlansAreAnswered, PlansAreMade};

use schemata_text::theorems::reads_back;

/// The lines of a plan are the canonical lines of its commands.
pub fn lines_are_commands()
    ensures { LinesAreCommands }
{}

/// Each command of a plan, played one after the other from the state on that the script leaves, is answered with success. Where each
/// domain has a division, each group of the plan is exclusive then and has its ways.
pub fn plans_are_answered()
    ensures answered { PlansAreAnswered }
    ensures made { PlansAreMade }
{
    reads_back();
}
