//! What is counted of the windows of each exclusive group, among the entries after a flush or a lock.
ghost use Rattle.std.specs.Prelude.{◌≡◌, ℕ, ◌+◌, ◌<◌, ◌^◌, ◌&&◌, IfOk, IfSome, length, nat_le, slice_index_or};
ghost use Rattle.lists.specs.Sums.{one_if};
ghost use Rattle.private_lru.specs.Covered.{is_own};
ghost use Rattle.private_lru.specs.Ends.{AreEnds, IsHigh, RiseByGroup, is_at};
ghost use Rattle.private_lru.specs.Tallies.{AreCounted, AreTallies};
ghost use Rattle.private_lru.specs.declared.exclusive_span.ExclusiveSpan.{ExclusiveSpan};

use crate::WindowCounts;
use crate::ends::{ends_of, high_after, place_of};
use crate::exclusive_span::ExclusiveSpan;
use crate::reaches::reaches_of;
use crate::span_set::SpanSet;
use crate::users::is_own_hit;
use crate::uses::{access_of, uses_of};
use cache_core::{SliceEntry, What};
use rc_base::NoMemory;
use std::alloc::Global;

/// The place of the group whose access it is in its window.
pub(crate) fn place_at(stays: &[ExclusiveSpan], what: What, high: u64) -> Option<usize>
    requires rising { RiseByGroup stays.now }
    ensures at { (j : ℕ) (d : ExclusiveSpan) → j < length stays.now → is_at result j ≡ (is_own (slice_index_or stays.now j d).gid.0 what && nat_le high (slice_index_or stays.now j d).last) }
    ensures within { IfSome result (λ i. i < length stays.now) }
{
    match access_of(what) {
        Some(access) => place_of(stays, access.owner, high),
        None => None,
    }
}

// One more, where this is one.
fn plus(count: u64, one: bool) -> u64
    requires { count + 1 < 2 ^ 64 }
    ensures { result ≡ one_if one + count }
{
    if one { 1 + count } else { count }
}

// The counts with an access more.
fn with_access(counts: WindowCounts, hit: bool, covered: bool) -> WindowCounts
    requires accesses { counts.accesses + 1 < 2 ^ 64 }
    requires hits { counts.hits + 1 < 2 ^ 64 }
    requires covered { counts.covered + 1 < 2 ^ 64 }
    requires covered_hits { counts.covered_hits + 1 < 2 ^ 64 }
    ensures accesses { result.accesses ≡ 1 + counts.accesses }
    ensures hits { result.hits ≡ one_if hit + counts.hits }
    ensures covered { result.covered ≡ one_if covered + counts.covered }
    ensures covered_hits { result.covered_hits ≡ one_if (covered && hit) + counts.covered_hits }
{
    WindowCounts {
        accesses: 1 + counts.accesses,
        hits: plus(counts.hits, hit),
        covered: plus(counts.covered, covered),
        covered_hits: plus(counts.covered_hits, covered && hit),
    }
}

// Exclusive spans, and up to which entry each one's accesses are covered.
#[derive(Drop)]
struct EndedSpans<'a> {
    stays: &'a [ExclusiveSpan],
    ends: &'a [usize],
}

// The counts with an entry more.
fn tally_entry(
    tallies: &mut [WindowCounts],
    spans: &EndedSpans<'_>,
    entries: &[SliceEntry],
    at: usize,
    high: u64,
)
    requires rising { RiseByGroup spans.now.stays.now }
    requires high { IsHigh entries.now (at + 1) high }
    requires within { at < length entries.now }
    requires room { at + 1 < 2 ^ 64 }
    requires ends { length spans.now.ends.now ≡ length spans.now.stays.now }
    requires tallies { AreTallies entries.now at spans.now.stays.now spans.now.ends.now tallies.old }
    ensures { AreTallies entries.now (at + 1) spans.now.stays.now spans.now.ends.now tallies.new }
{
    let what = entries[at].what;
    match place_at(spans.stays, what, high) {
        Some(place) => {
            let hit = is_own_hit(what, spans.stays[place].gid);
            tallies[place] = with_access(tallies[place], hit, at < spans.ends[place]);
        }
        None => {}
    }
}

// What is counted up to these ends.
fn tallies_of(
    alloc: Global,
    spans: &EndedSpans<'_>,
    entries: &[SliceEntry],
) -> Result<Vec<WindowCounts>, NoMemory>
    requires rising { RiseByGroup spans.now.stays.now }
    requires ends { length spans.now.ends.now ≡ length spans.now.stays.now }
    ensures { IfOk result (λ tallies. AreTallies entries.now (length entries.now) spans.now.stays.now spans.now.ends.now tallies.items) }
{
    let none = WindowCounts {
        accesses: 0,
        hits: 0,
        covered: 0,
        covered_hits: 0,
    };
    let mut tallies: Vec<WindowCounts> = vec![in alloc; none; spans.stays.len()]?;
    let mut high = 0;
    for at in 0..entries.len() {
        high = high_after(entries, at, high);
        tally_entry(&mut tallies, spans, entries, at, high);
    }
    Ok(tallies)
}

/// What is counted of the windows of these groups after an opening, from the entries up to the next one and their uses line by line.
pub fn counts_of(
    alloc: Global,
    stays: &[ExclusiveSpan],
    sets: u32,
    opening: What,
    entries: &[SliceEntry],
) -> Result<Vec<WindowCounts>, NoMemory>
    requires rising { RiseByGroup stays.now }
    requires few { length entries.now < 2 ^ 32 }
    ensures { IfOk result (λ counts. AreCounted sets opening entries.now stays.now counts.items) }
{
    let uses = uses_of(alloc, entries)?;
    let reaches = reaches_of(alloc, stays, entries)?;
    let set = SpanSet {
        stays,
        reaches: &reaches,
        sets,
        opening,
        none: entries.len(),
    };
    let ends = ends_of(alloc, &set, &uses)?;
    let spans = EndedSpans { stays, ends: &ends };
    let counts = tallies_of(alloc, &spans, entries)?;
    Ok(counts)
}
