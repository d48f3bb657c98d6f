//! The tests of a mask against what others use.
ghost use Rattle.std.specs.Prelude.{◌≡◌, ◌≢◌};
ghost use Rattle.mode_rules.specs.Overlaps.{is_apart, overlaps_counted, write_overlap};

use crate::domain_use::DomainUse;
use crate::setup::may_leave_setup;
use cbm::overlaps;
use rc_base::Mode;

/// What stands against a mask. The tests are tried in this order.
#[derive(Clone, Copy, Debug, PartialEq, Eq)]
pub enum Overlap {
    /// It overlaps the mask of another group that is exclusive.
    Exclusive,
    /// It overlaps a pseudo-locked region.
    Region,
    /// It overlaps the mask of another group that is shareable or exclusive, and its own group is exclusive or in
    /// pseudo-locksetup.
    Other,
    /// It overlaps ways that other hardware uses, and its group is exclusive or in pseudo-locksetup.
    Hardware,
    /// Its group is in pseudo-locksetup, and the cache has a region already.
    HasRegion,
}

/// Ok where a group of this mode may have this mask beside what others use, else the first that stands against it
/// (kernel documentation, "Resource alloc and monitor groups", on `mode`; the order of the tests is this project's
/// profile).
#[tactic(auto, unfolding(crate::specs::Overlaps::write_overlap, crate::specs::Overlaps::leaving_overlap))]
pub fn may_write_mask(mode: Mode, mask: u32, others: &DomainUse) -> Result<(), Overlap>
    requires { mode ≢ Mode.Locked }
    ensures { result ≡ write_overlap mode mask others.now }
{
    may_leave_setup(mask, others)?;
    if mode == Mode::Shareable {
        return Ok(());
    }
    if overlaps_counted(mask, others) {
        return Err(Overlap::Other);
    }
    if overlaps(mask, others.hardware) {
        return Err(Overlap::Hardware);
    }
    if mode == Mode::LockSetup && others.region != 0 {
        return Err(Overlap::HasRegion);
    }
    Ok(())
}

/// Whether a group with this mask may become exclusive: no other counted group and no other hardware uses its ways
/// (kernel documentation, "Resource alloc and monitor groups", on `mode`).
#[tactic(auto, unfolding(crate::specs::Overlaps::is_apart))]
pub fn may_turn_exclusive(mask: u32, others: &DomainUse) -> bool
    ensures { result ≡ is_apart mask others.now }
{
    !overlaps_counted(mask, others) && !overlaps(mask, others.hardware)
}

// Whether a mask overlaps that of a shareable or an exclusive group.
fn overlaps_counted(mask: u32, others: &DomainUse) -> bool
    ensures { result ≡ overlaps_counted mask others.now }
{
    overlaps(mask, others.shared) || overlaps(mask, others.exclusive)
}
