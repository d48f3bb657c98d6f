//! The text of a plan.
ghost use Rattle.std.specs.Prelude.{◌≡◌, ◌++◌, IfOk, OnOk};
ghost use Rattle.way_plans.specs.ComparedTexts.{compared_text};
ghost use Rattle.way_plans.specs.PlanTexts.{plan_text, script_lines};
ghost use Rattle.way_plans.specs.Values.{IsPrintable, parts_of};

use crate::asked_domain::AskedDomain;
use crate::compared::push_compared;
use crate::domains::{is_whole, push_domains};
use crate::plan::Plan;
use crate::schemata::{PlannedScript, push_schemata};
use crate::writes::{push_all_exclusive, push_all_shareable};
use crate::{Comparison, DomainPlan};
use group_tree::Group;
use num_text::GrowingText;
use rc_base::NoMemory;
use script_ops::Script;
use std::alloc::Global;

/// Adds the lines of a script, where each domain has a division.
pub(crate) fn push_script_lines(
    alloc: Global,
    text: &mut GrowingText,
    script: &Script,
    groups: &[Group],
    plans: &[DomainPlan],
) -> Result<(), NoMemory>
    requires { IsPrintable script.now.names groups.now plans.now }
    ensures { OnOk result (text.new ≡ text.old ++ script_lines script.now.names script.now.machine.ways groups.now (parts_of plans.now)) }
{
    if !is_whole(plans) {
        return Ok(());
    }
    push_all_shareable(text, script.names(), groups)?;
    let planned = PlannedScript { script, plans };
    push_schemata(alloc, text, &planned, 0, groups)?;
    push_all_exclusive(text, script.names(), groups)
}

/// The text of a plan (this project's profile): for each domain the curve of each group, or where `only_used` is set of each group that
/// has uses there, with a line for each number of ways that the machine has, and how many misses the best division has, or that there is
/// none; then, where each domain has one, the lines of a script that make the division. NoMemory where the allocator gives no room for it.
pub fn plan_report(
    alloc: Global,
    script: &Script,
    only_used: bool,
    plan: &Plan,
) -> Result<Vec<u8>, NoMemory>
    requires { IsPrintable script.now.names plan.now.groups.items plan.now.domains.items }
    ensures { IfOk result (λ bytes. bytes.items ≡ plan_text only_used script.now.names script.now.machine.ways plan.now.groups.items (parts_of plan.now.domains.items)) }
{
    let mut text = GrowingText::create(alloc)?;
    let asked = AskedDomain {
        script,
        only_used,
        domain: 0,
    };
    push_domains(&mut text, &asked, &plan.groups, &plan.domains)?;
    push_script_lines(alloc, &mut text, script, &plan.groups, &plan.domains)?;
    Ok(text.into_bytes())
}

/// The same text, and in it after the plan of each domain what that is compared with: how many of the same uses missed as the script was
/// played, and how many would miss if all groups shared all ways (this project's profile).
pub fn compared_report(
    alloc: Global,
    script: &Script,
    only_used: bool,
    plan: &Plan,
    comparisons: &[Comparison],
) -> Result<Vec<u8>, NoMemory>
    requires { IsPrintable script.now.names plan.now.groups.items plan.now.domains.items }
    ensures { IfOk result (λ bytes. bytes.items ≡ compared_text only_used script.now.names script.now.machine.ways plan.now.groups.items (parts_of plan.now.domains.items) comparisons.now) }
{
    let mut text = GrowingText::create(alloc)?;
    let asked = AskedDomain {
        script,
        only_used,
        domain: 0,
    };
    push_compared(&mut text, &asked, &plan.groups, &plan.domains, comparisons)?;
    push_script_lines(alloc, &mut text, script, &plan.groups, &plan.domains)?;
    Ok(text.into_bytes())
}
