//! Which ways of a domain may be given to groups.
ghost use Rattle.std.specs.Prelude.{◌≡◌, ◌<◌};
ghost use Rattle.cbm.specs.Masks.{has_way};
ghost use Rattle.machine.specs.Maps.{parameters_of};
ghost use Rattle.way_plans.specs.Plans.{free_ways, is_free, is_locked};

use crate::MOST_WAYS;
use cbm::has_way;
use machine::Machine;
use pseudo_lock::Region;
use tree_core::Tree;

// Whether a region has a way.
fn is_locked(region: Option<Region>, way: u8) -> bool
    requires { way < 32 }
    ensures { result ≡ is_locked region way }
{
    match region {
        Some(region) => has_way(region.mask, way),
        None => false,
    }
}

// Whether a group may get a way of a domain with this region.
fn is_free(machine: &Machine, region: Option<Region>, way: u8) -> bool
    requires { way < 32 }
    ensures { result ≡ is_free (parameters_of machine.now) region way }
{
    way < machine.ways && !has_way(machine.shareable, way) && !is_locked(region, way)
}

/// Whether each of 32 ways of a domain may be given to a group: the machine has it, no other hardware uses it, and no region has
/// it.
pub(crate) fn free_ways(tree: &Tree, domain: u8) -> [bool; MOST_WAYS]
    requires { domain < tree.now.machine.domains }
    ensures { result ≡ free_ways tree.now.machine tree.now.state domain }
{
    let region = tree.region(domain);
    let mut free = [false; MOST_WAYS];
    for way in 0..MOST_WAYS {
        free[way] = is_free(tree.machine(), region, way as u8);
    }
    free
}
