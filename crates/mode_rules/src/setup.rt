//! Entering and leaving pseudo-locksetup.
ghost use Rattle.std.specs.Prelude.{◌≡◌};
ghost use Rattle.mode_rules.specs.Overlaps.{leaving_overlap};
ghost use Rattle.mode_rules.specs.Setup.{entry_refusal};

use crate::domain_use::DomainUse;
use crate::overlap::Overlap;
use cbm::overlaps;
use rc_base::Why;

/// Ok where a group may enter pseudo-locksetup, else the first that keeps it out: it is the default group, or has
/// monitor groups, tasks or CPUs (kernel documentation, "Cache Pseudo-Locking"; the order is this project's profile).
///
/// `monitors` and `tasks` are how many it has, and `cpus` is its set of CPUs, bit c for CPU c.
#[tactic(auto, unfolding(crate::specs::Setup::entry_refusal))]
pub fn may_enter_setup(is_default: bool, monitors: u32, tasks: u32, cpus: u64) -> Result<(), Why>
    ensures { result
        ≡ entry_refusal
        (record { is_default = is_default; monitors = monitors; tasks = tasks; cpus = cpus }) }
{
    if is_default {
        return Err(Why::DefaultGroup);
    }
    if monitors != 0 {
        return Err(Why::HasMonGroups);
    }
    if tasks != 0 {
        return Err(Why::HasTasks);
    }
    if cpus != 0 {
        return Err(Why::HasCpus);
    }
    Ok(())
}

/// Ok where a group may leave pseudo-locksetup with the mask that it kept, else what stands against it: an exclusive
/// group's mask, then a pseudo-locked region (this project's profile).
#[tactic(auto, unfolding(crate::specs::Overlaps::leaving_overlap))]
pub fn may_leave_setup(mask: u32, others: &DomainUse) -> Result<(), Overlap>
    ensures { result ≡ leaving_overlap mask others.now }
{
    if overlaps(mask, others.exclusive) {
        return Err(Overlap::Exclusive);
    }
    if overlaps(mask, others.region) {
        return Err(Overlap::Region);
    }
    Ok(())
}
