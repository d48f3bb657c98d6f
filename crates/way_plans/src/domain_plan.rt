//! The plan of a domain.
ghost use Rattle.std.specs.Prelude.{◌≡◌, ◌<◌, ◌≤◌, All, IfOk, length, option_map};
ghost use Rattle.run_law.specs.Runs.{IsRun};
ghost use Rattle.run_law.specs.TreeHistory.{tree_after};
ghost use Rattle.script_ops.specs.Values.{IsLawful};
ghost use Rattle.way_plans.specs.declared.division_limits.TheConstants.{MOST_GROUPS, MOST_MISSES};
ghost use Rattle.way_plans.specs.Planned.{IsBestIfAny, order_in};
ghost use Rattle.way_plans.specs.Plans.{misses_in, planned};
ghost use Rattle.way_plans.specs.Values.{spans_of};

use crate::free::free_ways;
use crate::rows::misses_of;
use crate::{MOST_WAYS, Order, Span, best_division, group_curve};
use group_tree::Group;
use rc_base::NoMemory;
use run_law::Journals;
use script_ops::Script;
use std::alloc::Global;
use tree_core::Tree;

/// What a script leaves, for which its domains are planned.
#[derive(Drop)]
pub struct PlannedTree<'a> {
    /// The tree after all commands.
    pub tree: &'a Tree,
    /// Those groups of it that get ways, in order of creation.
    pub groups: &'a [Group],
}

/// What is planned for a domain.
#[derive(Drop)]
pub struct DomainPlan {
    /// The misses of each group, in order, with each number of ways from 0 to 32.
    pub misses: Vec<[u64; MOST_WAYS + 1]>,
    /// The ways that each gets, in order, and None where the ways of the domain do not suffice.
    pub spans: Option<Vec<Span>>,
    /// In which orders the groups were tried.
    pub order: Order,
}

// The misses of each of these groups in a domain.
fn misses_in(
    alloc: Global,
    script: &Script,
    journals: &Journals,
    groups: &[Group],
    domain: u8,
) -> Result<Vec<[u64; MOST_WAYS + 1]>, NoMemory>
    requires lawful { IsLawful script.now }
    requires run { IsRun script.now journals.now }
    requires domain { domain < script.now.machine.domains }
    ensures rows { IfOk result (λ rows. rows.items ≡ misses_in script.now journals.now domain groups.now) }
    ensures few { IfOk result (λ rows. All (All (λ n. n ≤ MOST_MISSES)) rows.items) }
{
    let mut rows = Vec::with_capacity(alloc, groups.len())?;
    for group in groups {
        let curve = group_curve(alloc, script, journals, domain, group.gid)?;
        rows.push(misses_of(&curve))?;
    }
    Ok(rows)
}

/// The best plan of a domain, from 0, for the groups that a script leaves: how many of its uses each would have missed with each
/// number of ways, and the ways side by side that each gets, so that all have the fewest misses together, in whatever order they lie,
/// or where that would take too long in order of creation. Each gets at least as many as a mask must have (kernel documentation,
/// `min_cbm_bits`), and none that other hardware or a region uses. NoMemory where the allocator gives no room for a curve, the rows
/// or the spans.
pub fn plan_domain(
    alloc: Global,
    script: &Script,
    journals: &Journals,
    left: &PlannedTree<'_>,
    domain: u8,
) -> Result<DomainPlan, NoMemory>
    requires lawful { IsLawful script.now }
    requires run { IsRun script.now journals.now }
    requires domain { domain < script.now.machine.domains }
    requires machine { left.now.tree.now.machine ≡ script.now.machine }
    requires state { left.now.tree.now.state ≡ tree_after script.now journals.now.tree }
    requires groups { left.now.groups.now ≡ planned left.now.tree.now.state }
    ensures misses { IfOk result (λ plan. plan.misses.items ≡ misses_in script.now journals.now domain left.now.groups.now) }
    ensures best { IfOk result (λ plan. IsBestIfAny script.now journals.now domain (option_map spans_of plan.spans)) }
    ensures order { IfOk result (λ plan. plan.order ≡ order_in script.now journals.now domain) }

    // The groups are few, and so are the misses of each.
    ensures few_groups { IfOk result (λ plan. length plan.misses.items ≤ MOST_GROUPS) }
    ensures few_misses { IfOk result (λ plan. All (All (λ n. n ≤ MOST_MISSES)) plan.misses.items) }
{
    let misses = misses_in(alloc, script, journals, left.groups, domain)?;
    let free = free_ways(left.tree, domain);
    let division = best_division(alloc, misses.as_slice(), &free, script.machine().min)?;
    Ok(DomainPlan {
        misses,
        spans: division.spans,
        order: division.order,
    })
}
