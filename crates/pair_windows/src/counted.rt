//! What is counted of the windows of partitions that are kept after a flush.
ghost use Rattle.std.specs.Prelude.{◌≡◌, ◌^◌, ◌<◌, ◌∷◌, [], ◌++◌, All, IfOk, OnOk, filter, length, map};
ghost use Rattle.cache_core.specs.declared.entry.What.TheVariants.{Flush as TheFlush};
ghost use Rattle.pair_windows.specs.CdpWindows.{is_used};
ghost use Rattle.pair_windows.specs.Counted.{counted_window, counted_windows};
ghost use Rattle.pair_windows.specs.PartitionSpans.{stay_of};
ghost use Rattle.pair_windows.specs.declared.partition.Partition.{Partition as PartitionValue};
ghost use Rattle.private_lru.specs.Ends.{RiseByGroup};
ghost use Rattle.private_lru.specs.Tallies.{AreCounted};
ghost use Rattle.private_lru.specs.declared.span.Span.{Span as SpanValue};

use crate::cdp_window::CdpWindow;
use crate::partition::Partition;
use crate::partition_spans::stays_of;
use cache_core::{SliceEntry, What};
use private_lru::{Span, WindowCounts, counts_of};
use rc_base::NoMemory;
use std::alloc::Global;

/// The counts of the windows of these partitions among the entries after a flush.
pub(crate) fn counts_at(
    alloc: Global,
    sets: u32,
    kept: &[Span<Partition>],
    front: &[SliceEntry],
) -> Result<Vec<WindowCounts>, NoMemory>
    requires few_groups { All (λ (s : SpanValue PartitionValue). s.held.gid.0 < 2 ^ 31) kept.now }
    requires rising { RiseByGroup (map stay_of kept.now) }
    requires few { length front.now < 2 ^ 32 }
    ensures { IfOk result (λ counts. AreCounted sets TheFlush front.now (map stay_of kept.now) counts.items) }
{
    if kept.is_empty() {
        return Ok(Vec::new(alloc));
    }
    let stays = stays_of(alloc, kept)?;
    counts_of(alloc, &stays, sets, What::Flush, front)
}

// The window of a partition with these counts. The hits of a private cache are not counted anew: they are as many as the covered
// hits.
fn window_of(domain: u8, from: u32, p: Partition, counts: WindowCounts) -> CdpWindow
    ensures { result ≡ counted_window domain from p counts }
{
    CdpWindow {
        domain,
        gid: p.gid,
        side: p.side,
        ways: cbm::count(p.mask) as u8,
        from,
        accesses: counts.accesses,
        hits: counts.hits,
        covered: counts.covered,
        covered_hits: counts.covered_hits,
        private: counts.covered_hits,
    }
}

// Adds a window in which its side has an access.
fn push_used(windows: &mut Vec<CdpWindow>, window: CdpWindow) -> Result<(), NoMemory>
    ensures { OnOk result (windows.new.items ≡ windows.old.items ++ filter is_used (window ∷ [])) }
{
    if 0 < window.accesses {
        windows.push(window)?;
    }
    Ok(())
}

/// Adds the windows of these partitions in which their sides have accesses.
pub(crate) fn push_counted(
    windows: &mut Vec<CdpWindow>,
    domain: u8,
    from: u32,
    kept: &[Span<Partition>],
    counts: &[WindowCounts],
) -> Result<(), NoMemory>
    requires same { length counts.now ≡ length kept.now }
    ensures { OnOk result (windows.new.items ≡ windows.old.items ++ filter is_used (counted_windows domain from kept.now counts.now)) }
{
    for i in 0..kept.len() {
        push_used(windows, window_of(domain, from, kept[i].held, counts[i]))?;
    }
    Ok(())
}
