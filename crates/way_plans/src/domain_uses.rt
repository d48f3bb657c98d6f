//! The curve of a group in a domain.
ghost use Rattle.std.specs.Prelude.{◌≡◌, ◌<◌, ◌≤◌, IfOk};
ghost use Rattle.way_plans.specs.GroupItems.{items_of};
ghost use Rattle.way_plans.specs.declared.limits.TheConstants.{MOST_USES};
ghost use Rattle.run_law.specs.Runs.{IsRun};
ghost use Rattle.script_ops.specs.Values.{IsLawful};
ghost use Rattle.way_curve.specs.IsCurve.{IsItemCurve};

use crate::slice_lines::note_slice;
use rc_base::{Gid, NoMemory};
use run_law::Journals;
use script_ops::Script;
use std::alloc::Global;
use way_curve::Curve;

/// The curve of what a group used in a domain, from 0, since its slices were last emptied, each by a flush or a lock, and of the lines
/// that `clflush` dropped meanwhile. It takes a step for each entry since then, whoever made it. NoMemory where the allocator gives no
/// room for the curve, which takes 264 bytes a set.
pub fn group_curve(
    alloc: Global,
    script: &Script,
    journals: &Journals,
    domain: u8,
    gid: Gid,
) -> Result<Curve, NoMemory>
    requires lawful { IsLawful script.now }
    requires run { IsRun script.now journals.now }
    requires domain { domain < script.now.machine.domains }
    ensures sets { IfOk result (λ c. c.sets ≡ script.now.machine.sets) }
    ensures few { IfOk result (λ c. c.uses ≤ MOST_USES) }
    ensures curve { IfOk result (λ c. IsItemCurve c (items_of script.now.machine journals.now domain gid.0)) }
{
    let machine = script.machine();
    let mut curve = Curve::create(alloc, machine.sets)?;
    for slice in 0..machine.slices {
        let number = u32::from(domain) * u32::from(machine.slices) + u32::from(slice);
        note_slice(&mut curve, journals.slice(number), gid);
    }
    Ok(curve)
}
