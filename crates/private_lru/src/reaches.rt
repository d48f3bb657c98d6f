//! Up to where each exclusive group has accesses in its window, among the entries after a flush or a lock.
ghost use Rattle.std.specs.Prelude.{◌≡◌, ◌+◌, ◌<◌, IfOk, length};
ghost use Rattle.private_lru.specs.Cuts.{AreReaches};
ghost use Rattle.private_lru.specs.Ends.{IsHigh, RiseByGroup};

use crate::ends::high_after;
use crate::exclusive_span::ExclusiveSpan;
use crate::tallies::place_at;
use cache_core::SliceEntry;
use rc_base::NoMemory;
use std::alloc::Global;

// The positions with an entry more.
fn reach_entry(
    reaches: &mut [usize],
    stays: &[ExclusiveSpan],
    entries: &[SliceEntry],
    at: usize,
    high: u64,
)
    requires rising { RiseByGroup stays.now }
    requires high { IsHigh entries.now (at + 1) high }
    requires within { at < length entries.now }
    requires reaches { AreReaches entries.now at stays.now reaches.old }
    ensures { AreReaches entries.now (at + 1) stays.now reaches.new }
{
    match place_at(stays, entries[at].what, high) {
        Some(place) => reaches[place] = at + 1,
        None => {}
    }
}

/// For each of these groups, a position after all its accesses in its window, and before its other ones.
pub(crate) fn reaches_of(
    alloc: Global,
    stays: &[ExclusiveSpan],
    entries: &[SliceEntry],
) -> Result<Vec<usize>, NoMemory>
    requires rising { RiseByGroup stays.now }
    ensures { IfOk result (λ reaches. AreReaches entries.now (length entries.now) stays.now reaches.items) }
{
    let mut reaches: Vec<usize> = vec![in alloc; 0; stays.len()]?;
    let mut high = 0;
    for at in 0..entries.len() {
        high = high_after(entries, at, high);
        reach_entry(&mut reaches, stays, entries, at, high);
    }
    Ok(reaches)
}
