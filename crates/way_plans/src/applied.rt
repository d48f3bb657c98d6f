//! The text of a script with its plan.
ghost use Rattle.std.specs.Prelude.{◌≡◌, ◌+◌, ◌≤◌, ◌++◌, IfOk, OnOk, length};
ghost use Rattle.way_plans.specs.AppliedTexts.{added_lines, applied_text, ends_line, line_end, phase_lines, undivided_line, undivided_lines};
ghost use Rattle.way_plans.specs.Values.{IsPrintable, part_of, parts_of};

use crate::DomainPlan;
use crate::domains::is_whole;
use crate::plan::Plan;
use crate::report::push_script_lines;
use group_tree::Group;
use num_text::GrowingText;
use rc_base::NoMemory;
use script_ops::Script;
use std::alloc::Global;

// Whether the last byte is a newline.
fn ends_line(bytes: &[u8]) -> bool
    ensures { result ≡ ends_line bytes.now }
{
    !bytes.is_empty() && bytes[bytes.len() - 1] == b'\n'
}

// Adds the newline that the last of these lines lacks.
fn push_line_end(text: &mut GrowingText, bytes: &[u8]) -> Result<(), NoMemory>
    ensures { OnOk result (text.new ≡ text.old ++ line_end bytes.now) }
{
    if ends_line(bytes) {
        return Ok(());
    }
    text.push(b"\n")
}

// Adds the comment line of a domain, where it has no division.
fn push_undivided_line(
    text: &mut GrowingText,
    domain: u8,
    plan: &DomainPlan,
) -> Result<(), NoMemory>
    ensures { OnOk result (text.new ≡ text.old ++ undivided_line domain (part_of plan.now).spans) }
{
    if plan.spans.is_some() {
        return Ok(());
    }
    text.push(b"# domain ")?;
    text.push_decimal(u64::from(domain))?;
    text.push(b": no division\n")
}

// Adds the comment lines of domains without a division, the first of which has this number.
fn push_undivided(text: &mut GrowingText, domain: u8, plans: &[DomainPlan]) -> Result<(), NoMemory>
    requires { domain + length plans.now ≤ 8 }
    ensures { OnOk result (text.new ≡ text.old ++ undivided_lines domain (parts_of plans.now)) }
{
    let [plan, later @ ..] = plans else {
        return Ok(());
    };
    push_undivided_line(text, domain, plan)?;
    push_undivided(text, domain + 1, later)
}

// Adds a phase with one thread that has the lines of the plan.
fn push_phase(
    alloc: Global,
    text: &mut GrowingText,
    script: &Script,
    groups: &[Group],
    plans: &[DomainPlan],
) -> Result<(), NoMemory>
    requires { IsPrintable script.now.names groups.now plans.now }
    ensures { OnOk result (text.new ≡ text.old ++ phase_lines script.now.names script.now.machine.ways groups.now (parts_of plans.now)) }
{
    text.push(b"phase\nthread\n")?;
    push_script_lines(alloc, text, script, groups, plans)
}

// Adds what follows the script.
fn push_added(
    alloc: Global,
    text: &mut GrowingText,
    script: &Script,
    groups: &[Group],
    plans: &[DomainPlan],
) -> Result<(), NoMemory>
    requires { IsPrintable script.now.names groups.now plans.now }
    ensures { OnOk result (text.new ≡ text.old ++ added_lines script.now.names script.now.machine.ways groups.now (parts_of plans.now)) }
{
    if !is_whole(plans) {
        return push_undivided(text, 0, plans);
    }
    push_phase(alloc, text, script, groups, plans)
}

/// The text of a script with its plan (this project's profile): these bytes, with a newline after the last line; then, where each domain
/// has a division, a phase with one thread that has the lines of the plan, and else a comment line for each domain that has none.
/// NoMemory where the allocator gives no room for it.
pub fn applied_plan(
    alloc: Global,
    script: &Script,
    bytes: &[u8],
    plan: &Plan,
) -> Result<Vec<u8>, NoMemory>
    requires { IsPrintable script.now.names plan.now.groups.items plan.now.domains.items }
    ensures { IfOk result (λ text. text.items ≡ applied_text bytes.now script.now.names script.now.machine.ways plan.now.groups.items (parts_of plan.now.domains.items)) }
{
    let mut text = GrowingText::create(alloc)?;
    text.push(bytes)?;
    push_line_end(&mut text, bytes)?;
    push_added(alloc, &mut text, script, &plan.groups, &plan.domains)?;
    Ok(text.into_bytes())
}
