//! The count of a window of a run.

ghost use Rattle.std.specs.Prelude.{◌≡◌, length};
ghost use Rattle.cache_core.specs.Filled.{empties};
ghost use Rattle.cbm.specs.Masks.{ways_of};

use crate::opening::Opening;
use cache_core::What;
use private_lru::{ExclusiveSpan, WindowCounts};
use run_counts::Window;

/// Whether this empties the slice.
pub(crate) fn empties(what: What) -> bool
    ensures { result ≡ empties what }
{
    matches!(what, What::Flush | What::Lock { .. })
}

/// The window of an exclusive group after a flush or a lock, with these counts.
pub(crate) fn window_of(opening: Opening, stay: ExclusiveSpan, counts: WindowCounts) -> Window
    ensures place { (result.domain ≡ opening.domain) × (result.slice ≡ opening.slice) × (result.from ≡ opening.from) × (result.gid ≡ stay.gid) }
    ensures ways { result.ways ≡ length (ways_of stay.mask) }
    ensures counts { (result.accesses ≡ counts.accesses) × (result.hits ≡ counts.hits) × (result.covered ≡ counts.covered) × (result.covered_hits ≡ counts.covered_hits) × (result.private ≡ counts.covered_hits) }
{
    Window {
        domain: opening.domain,
        slice: opening.slice,
        gid: stay.gid,
        ways: cbm::count(stay.mask) as u8,
        from: opening.from,
        accesses: counts.accesses,
        hits: counts.hits,
        covered: counts.covered,
        covered_hits: counts.covered_hits,
        private: counts.covered_hits,
    }
}
