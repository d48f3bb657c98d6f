//! What is an access of a group, and of which line.

ghost use Rattle.std.specs.Prelude.{◌≡◌};
ghost use Rattle.private_lru.specs.GroupCounts.{is_own_hit};
ghost use Rattle.private_lru.specs.Covered.{loads};

use cache_core::What;
use rc_base::Gid;

/// Whether it is an access of the group that hit.
pub fn is_own_hit(what: What, group: Gid) -> bool
    ensures { result ≡ is_own_hit group.0 what }
{
    match what {
        What::Access { owner, hit, .. } => owner.0 == group.0 && hit,
        _ => false,
    }
}

/// Whether a lock loads the line into a cache of so many sets.
pub(crate) fn loads(sets: u32, opening: What, line: u64) -> bool
    ensures { result ≡ loads sets opening line }
{
    match opening {
        What::Lock { mask, first_line } => {
            first_line <= line && line - first_line < u64::from(sets) * u64::from(cbm::count(mask))
        }
        _ => false,
    }
}
