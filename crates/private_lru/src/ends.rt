//! Up to where the accesses of each exclusive group are covered, among the entries after a flush or a lock.
ghost use Rattle.std.specs.Prelude.{◌≡◌, ℕ, ◌+◌, ◌<◌, ◌≤◌, ◌==◌, ◌&&◌, IfOk, IfSome, OnSome, Some, if◌then◌else◌, length, min, nat_le, nat_lt, slice_get, slice_index_or};
ghost use Rattle.std.specs.List.{AllWithin};
ghost use Rattle.cache_core.specs.declared.entry.SliceEntry.{SliceEntry};
ghost use Rattle.private_lru.specs.Cuts.{AreCuts, AreEach, IsStart, cut_by, loaded_by, shared_by};
ghost use Rattle.private_lru.specs.Ends.{IsHigh, RiseByGroup, is_at};
ghost use Rattle.private_lru.specs.Uses.{AreByLine};
ghost use Rattle.private_lru.specs.declared.exclusive_span.ExclusiveSpan.{ExclusiveSpan};

use crate::exclusive_span::ExclusiveSpan;
use crate::span_set::SpanSet;
use crate::users::loads;
use crate::uses::LineUse;
use cache_core::SliceEntry;
use rc_base::{Gid, NoMemory};
use std::alloc::Global;

// The lesser of two positions.
fn lesser(a: usize, b: usize) -> usize
    ensures { result ≡ min a b }
{
    if a < b { a } else { b }
}

/// The highest epoch of the entries, with the next one.
pub(crate) fn high_after(entries: &[SliceEntry], at: usize, high: u64) -> u64
    requires high { IsHigh entries.now at high }
    requires within { at < length entries.now }
    ensures { IsHigh entries.now (at + 1) result }
{
    let epoch = entries[at].epoch;
    if high < epoch { epoch } else { high }
}

// How many of these groups were made before one.
fn count_before(stays: &[ExclusiveSpan], gid: Gid) -> usize
    requires rising { RiseByGroup stays.now }
    ensures before { AllWithin (λ (s : ExclusiveSpan). s.gid.0 < gid.0) stays.now 0 result }
    ensures rest { AllWithin (λ (s : ExclusiveSpan). gid.0 ≤ s.gid.0) stays.now result (length stays.now) }
    ensures within { result ≤ length stays.now }
{
    stays.partition_point(|stay| stay.gid.0 < gid.0)
}

// Whether it is this group, and its window goes on up to this epoch.
fn is_open(stay: ExclusiveSpan, gid: Gid, high: u64) -> bool
    ensures { result ≡ ((gid.0 == stay.gid.0) && nat_le high stay.last) }
{
    gid.0 == stay.gid.0 && high <= stay.last
}

// The place, where this holds.
fn place_if(place: usize, holds: bool) -> Option<usize>
    ensures at { (j : ℕ) → is_at result j ≡ ((place == j) && holds) }
    ensures same { IfSome result (λ i. i ≡ place) }
{
    if holds { Some(place) } else { None }
}

/// The place of a group among these, where its window goes on up to this epoch.
pub(crate) fn place_of(stays: &[ExclusiveSpan], gid: Gid, high: u64) -> Option<usize>
    requires rising { RiseByGroup stays.now }
    ensures at { (j : ℕ) (d : ExclusiveSpan) → j < length stays.now → is_at result j ≡ ((gid.0 == (slice_index_or stays.now j d).gid.0) && nat_le high (slice_index_or stays.now j d).last) }
    ensures within { IfSome result (λ i. i < length stays.now) }
{
    let place = count_before(stays, gid);
    match stays.get(place) {
        Some(stay) => place_if(place, is_open(*stay, gid, high)),
        None => None,
    }
}

// The end, where the use is in its group's window: at most there.
fn end_by(end: usize, reach: usize, user: LineUse, at: usize) -> usize
    ensures { result ≡ (if nat_lt user.at reach then min end at else end) }
{
    if (user.at as usize) < reach {
        lesser(end, at)
    } else {
        end
    }
}

// The covered accesses of the group of a use in its window end there at the latest.
fn cut(ends: &mut [usize], set: &SpanSet<'_>, user: LineUse, at: usize)
    requires rising { RiseByGroup set.now.stays.now }
    requires reaches { length set.now.reaches.now ≡ length set.now.stays.now }
    requires ends { length ends.old ≡ length set.now.stays.now }
    ensures { AreEach (cut_by user at) set.now.stays.now set.now.reaches.now ends.old ends.new }
{
    match place_of(set.stays, user.owner, 0) {
        Some(place) => ends[place] = end_by(ends[place], set.reaches[place], user, at),
        None => {}
    }
}

// No access of a group is covered, where the opening loaded the line of one.
fn cut_loaded(ends: &mut [usize], set: &SpanSet<'_>, user: LineUse)
    requires rising { RiseByGroup set.now.stays.now }
    requires reaches { length set.now.reaches.now ≡ length set.now.stays.now }
    requires ends { length ends.old ≡ length set.now.stays.now }
    ensures { AreEach (loaded_by set.now.sets set.now.opening user) set.now.stays.now set.now.reaches.now ends.old ends.new }
{
    if loads(set.sets, set.opening, user.line) {
        cut(ends, set, user, 0);
    }
}

// Of two uses of a line by two groups, each ends what is covered of the other.
fn cut_shared(ends: &mut [usize], set: &SpanSet<'_>, first: LineUse, next: LineUse)
    requires rising { RiseByGroup set.now.stays.now }
    requires reaches { length set.now.reaches.now ≡ length set.now.stays.now }
    requires ends { length ends.old ≡ length set.now.stays.now }
    ensures { AreEach (shared_by first next) set.now.stays.now set.now.reaches.now ends.old ends.new }
{
    if first.owner.0 != next.owner.0 {
        cut(ends, set, first, next.at as usize);
        cut(ends, set, next, first.at as usize);
    }
}

// The first use of the line of the next one.
fn start_of(uses: &[LineUse], start: usize, next: usize) -> usize
    requires by_line { AreByLine uses.now }
    requires within { next < length uses.now }
    requires start { IsStart uses.now next start }
    ensures start { IsStart uses.now (next + 1) result }
    ensures early { result ≤ next }
{
    if uses[start].line == uses[next].line {
        start
    } else {
        next
    }
}

// The ends with a use more.
fn cut_use(ends: &mut [usize], set: &SpanSet<'_>, uses: &[LineUse], start: usize, next: usize)
    requires rising { RiseByGroup set.now.stays.now }
    requires reaches { length set.now.reaches.now ≡ length set.now.stays.now }
    requires within { next < length uses.now }
    requires early { start ≤ next }
    requires start { IsStart uses.now (next + 1) start }
    requires ends { AreCuts set.now.sets set.now.opening uses.now next set.now.none set.now.stays.now set.now.reaches.now ends.old }
    ensures { AreCuts set.now.sets set.now.opening uses.now (next + 1) set.now.none set.now.stays.now set.now.reaches.now ends.new }
{
    cut_loaded(ends, set, uses[next]);
    cut_shared(ends, set, uses[start], uses[next]);
}

/// For each of these groups, how many entries stand before the first after which none of its accesses is covered; the set's `none`
/// where all are.
pub(crate) fn ends_of(
    alloc: Global,
    set: &SpanSet<'_>,
    uses: &[LineUse],
) -> Result<Vec<usize>, NoMemory>
    requires rising { RiseByGroup set.now.stays.now }
    requires reaches { length set.now.reaches.now ≡ length set.now.stays.now }
    requires by_line { AreByLine uses.now }
    ensures { IfOk result (λ ends. AreCuts set.now.sets set.now.opening uses.now (length uses.now) set.now.none set.now.stays.now set.now.reaches.now ends.items) }
{
    let mut ends: Vec<usize> = vec![in alloc; set.none; set.stays.len()]?;
    let mut start = 0;
    for next in 0..uses.len() {
        start = start_of(uses, start, next);
        cut_use(&mut ends, set, uses, start, next);
    }
    Ok(ends)
}
