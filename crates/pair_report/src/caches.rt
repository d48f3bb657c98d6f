//! The caches of a level of a script, and what is counted in them.
ghost use Rattle.std.specs.Prelude.{◌≡◌, ◌≤◌, IfOk, length, map};
ghost use Rattle.pair_text.specs.Values.{side_machine};
ghost use Rattle.run_counts.specs.CacheCounts.{slices_alone, valid_in};
ghost use Rattle.run_counts.specs.Tallies.{IsTallyOf};
ghost use Rattle.run_law.specs.Entries.{entries_of};

use cache_core::SliceEntry;
use pair_text::{PairScript, Side};
use pair_windows::machine_on;
use rc_base::NoMemory;
use run_counts::CacheCounts;
use std::alloc::Global;

/// What is counted in the caches of a level.
pub(crate) fn counts_on(
    alloc: Global,
    script: &PairScript,
    side: Side,
    caches: &[Vec<SliceEntry>],
) -> Result<CacheCounts, NoMemory>
    requires one_slice { (side_machine script.now.machines side).slices ≡ 1 }
    requires few { length caches.now ≤ 8 }
    ensures tally { IfOk result (λ c. IsTallyOf (slices_alone (map entries_of caches.now)) (length (map entries_of caches.now)) c.tally) }
    ensures valid { IfOk result (λ c. c.valid ≡ valid_in (side_machine script.now.machines side) (map entries_of caches.now)) }
{
    CacheCounts::of(alloc, machine_on(script, side), caches)
}
