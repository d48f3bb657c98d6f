//! What the plans of domains are compared with.
ghost use Rattle.std.specs.Prelude.{◌≡◌, ◌<◌, IfOk};
ghost use Rattle.way_plans.specs.Comparisons.{comparison_in, comparisons_in};
ghost use Rattle.run_law.specs.Runs.{IsRun};
ghost use Rattle.script_ops.specs.Values.{IsLawful};

use crate::Comparison;
use crate::played::played_misses;
use crate::shared_uses::shared_misses;
use group_tree::Group;
use rc_base::NoMemory;
use run_law::Journals;
use script_ops::Script;
use std::alloc::Global;

// What the plan of a domain is compared with.
fn comparison_in(
    alloc: Global,
    script: &Script,
    journals: &Journals,
    groups: &[Group],
    domain: u8,
) -> Result<Comparison, NoMemory>
    requires lawful { IsLawful script.now }
    requires run { IsRun script.now journals.now }
    requires domain { domain < script.now.machine.domains }
    ensures { IfOk result (λ c. c ≡ comparison_in script.now journals.now groups.now domain) }
{
    let as_it_is = played_misses(script, journals, domain, groups);
    let shared = shared_misses(alloc, script, journals, domain, groups)?;
    Ok(Comparison { as_it_is, shared })
}

/// What the plan of each domain for these groups is compared with, rising from domain 0: of the same uses, those since each slice was
/// last emptied, how many missed as the script was played, and how many would miss in one private cache that has all ways of the
/// machine, if all groups used it in the order in which the script has their uses (this project's profile). NoMemory where the
/// allocator gives no room for a curve, which takes 264 bytes a set, or for the list.
pub fn comparisons_of(
    alloc: Global,
    script: &Script,
    journals: &Journals,
    groups: &[Group],
) -> Result<Vec<Comparison>, NoMemory>
    requires lawful { IsLawful script.now }
    requires run { IsRun script.now journals.now }
    ensures { IfOk result (λ all. all.items ≡ comparisons_in script.now journals.now groups.now) }
{
    let mut all = Vec::new(alloc);
    for domain in 0..script.machine().domains {
        let one = comparison_in(alloc, script, journals, groups, domain)?;
        all.push(one)?;
    }
    Ok(all)
}
