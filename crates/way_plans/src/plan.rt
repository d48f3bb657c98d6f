//! The plan of a script.
ghost use Rattle.std.specs.Prelude.{◌≡◌, ◌≤◌, All, IfOk, length};
ghost use Rattle.way_plans.specs.Planned.{AreParts, ArePartsFrom};
ghost use Rattle.way_plans.specs.Values.{IsPrintable, IsSmall, parts_of};
ghost use Rattle.run_law.specs.Runs.{IsRun};
ghost use Rattle.run_law.specs.TreeHistory.{tree_after};
ghost use Rattle.script_ops.specs.Values.{IsLawful};
ghost use Rattle.way_plans.specs.Plans.{planned};

use crate::{DomainPlan, PlannedTree, plan_domain, planned_groups, replay_all};
use group_tree::Group;
use rc_base::NoMemory;
use run_law::Journals;
use script_ops::Script;
use std::alloc::Global;

/// What is planned for a script that was played.
#[derive(Drop)]
pub struct Plan {
    /// The groups that get ways, in order of their gids.
    pub groups: Vec<Group>,
    /// What is planned for each domain, rising from 0.
    pub domains: Vec<DomainPlan>,
}

// The plans of all domains.
fn plan_domains(
    alloc: Global,
    script: &Script,
    journals: &Journals,
    left: &PlannedTree<'_>,
) -> Result<Vec<DomainPlan>, NoMemory>
    requires lawful { IsLawful script.now }
    requires run { IsRun script.now journals.now }
    requires machine { left.now.tree.now.machine ≡ script.now.machine }
    requires state { left.now.tree.now.state ≡ tree_after script.now journals.now.tree }
    requires groups { left.now.groups.now ≡ planned left.now.tree.now.state }
    ensures all { IfOk result (λ plans. length plans.items ≡ script.now.machine.domains) }
    ensures each { IfOk result (λ plans. ArePartsFrom script.now journals.now 0 (parts_of plans.items)) }
    ensures small { IfOk result (λ plans. All IsSmall plans.items) }
{
    let mut plans = Vec::new(alloc);
    for domain in 0..script.machine().domains {
        let plan = plan_domain(alloc, script, journals, left, domain)?;
        plans.push(plan)?;
    }
    Ok(plans)
}

/// The plan of a script by the journals of a run of it: the control groups that it leaves shareable or exclusive, and for each
/// domain what each of them misses with each number of ways and how the ways are best divided among them. NoMemory where the
/// allocator gives no room for it.
pub fn plan_of(alloc: Global, script: &Script, journals: &Journals) -> Result<Plan, NoMemory>
    requires lawful { IsLawful script.now }
    requires run { IsRun script.now journals.now }
    ensures groups { IfOk result (λ plan. plan.groups.items ≡ planned (tree_after script.now journals.now.tree)) }
    ensures parts { IfOk result (λ plan. AreParts script.now journals.now (parts_of plan.domains.items)) }
    ensures printable { IfOk result (λ plan. IsPrintable script.now.names plan.groups.items plan.domains.items) }
{
    let replay = replay_all(alloc, script, journals)?;
    let groups = planned_groups(alloc, replay.tree())?;
    let left = PlannedTree {
        tree: replay.tree(),
        groups: &groups,
    };
    let domains = plan_domains(alloc, script, journals, &left)?;
    Ok(Plan { groups, domains })
}
