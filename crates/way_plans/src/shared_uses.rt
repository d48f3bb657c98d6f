//! The misses of several groups that share a cache.
ghost use Rattle.std.specs.Prelude.{◌≡◌, ◌<◌, ◌≤◌, IfOk};
ghost use Rattle.way_plans.specs.Comparisons.{shared_items, shared_misses};
ghost use Rattle.way_plans.specs.declared.limits.TheConstants.{MOST_USES};
ghost use Rattle.run_law.specs.Runs.{IsRun};
ghost use Rattle.script_ops.specs.Values.{IsLawful};
ghost use Rattle.way_curve.specs.IsCurve.{IsItemCurve};

use crate::shared_lines::note_shared;
use group_tree::Group;
use rc_base::NoMemory;
use run_law::Journals;
use script_ops::Script;
use std::alloc::Global;
use way_curve::Curve;

// The curve of what all groups used in a domain since its slices were last emptied, and of the lines that were dropped meanwhile.
fn shared_curve(
    alloc: Global,
    script: &Script,
    journals: &Journals,
    domain: u8,
    groups: &[Group],
) -> Result<Curve, NoMemory>
    requires lawful { IsLawful script.now }
    requires run { IsRun script.now journals.now }
    requires domain { domain < script.now.machine.domains }
    ensures sets { IfOk result (λ c. c.sets ≡ script.now.machine.sets) }
    ensures few { IfOk result (λ c. c.uses ≤ MOST_USES) }
    ensures curve { IfOk result (λ c. IsItemCurve c (shared_items script.now.machine journals.now domain groups.now)) }
{
    let machine = script.machine();
    let mut curve = Curve::create(alloc, machine.sets)?;
    for slice in 0..machine.slices {
        let number = u32::from(domain) * u32::from(machine.slices) + u32::from(slice);
        note_shared(&mut curve, journals.slice(number), groups);
    }
    Ok(curve)
}

/// How many of the groups' uses of a domain would miss in one private cache that has all ways of the machine.
pub(crate) fn shared_misses(
    alloc: Global,
    script: &Script,
    journals: &Journals,
    domain: u8,
    groups: &[Group],
) -> Result<u64, NoMemory>
    requires lawful { IsLawful script.now }
    requires run { IsRun script.now journals.now }
    requires domain { domain < script.now.machine.domains }
    ensures { IfOk result (λ misses. misses ≡ shared_misses script.now.machine journals.now domain groups.now) }
{
    let curve = shared_curve(alloc, script, journals, domain, groups)?;
    Ok(curve.misses(script.machine().ways))
}
