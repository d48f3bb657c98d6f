//! What an access and a drop do to their set, and to the counts.
ghost use Rattle.std.specs.Prelude.{◌≡◌, ℕ, ◌-◌, ◌+◌, ◌==◌, ◌%◌, ◌^◌, ◌<◌, length, IfSome, None, Some, slice_set, slice_index};
ghost use Rattle.lists.specs.Sums.{one_if, sum_below};
ghost use Rattle.cache_core.specs.RmidCounts.{IsCounted, Recounts, Uncounts, is_rmid};
ghost use Rattle.cache_core.specs.Places.{set_in, place_in};
ghost use Rattle.cache_core.specs.Stands.{Drops, Touches};
ghost use Rattle.cache_core.specs.declared.touched.Touched.TheVariants.{Filled};

use crate::cached_line::CachedLine;
use crate::sets::Sets;
use crate::touched::Touched;
use occupancy::Counts;

/// Looks for the line of a place in its set, and fills the place into a way of the mask where no way holds the line.
#[inline(always)]
pub fn touch(
    sets: &mut Sets,
    counts: &mut Counts,
    set: u32,
    mask: u32,
    place: CachedLine,
) -> Touched
    requires set { set < length sets.old }
    requires mask { 0 < mask % 2 ^ length (set_in sets.old set) }
    requires rmid { place.rmid < length counts.old }
    requires room { sum_below (length counts.old) (slice_index counts.old) < 2 ^ 64 - 1 }
    requires counted { (way : ℕ) → IfSome (place_in (set_in sets.old set) way) (λ p. IsCounted counts.old p.rmid) }
    ensures sets { sets.new ≡ slice_set sets.old set (set_in sets.new set) }
    ensures touched { Touches (set_in sets.old set) (set_in sets.new set) mask place result }
    ensures size { length counts.new ≡ length counts.old }
    ensures counts { Recounts counts.old counts.new (set_in sets.old set) place result }
{
    match sets.find(set, place.line) {
        Some(way) => {
            sets.mark(set, way, place.used);
            Touched::Hit { way }
        }
        None => {
            let way = sets.victim(set, mask);
            fill(sets, counts, set, way, place);
            Touched::Filled { way }
        }
    }
}

// Fills a place into a way of a set, in place of the line that the way held.
fn fill(sets: &mut Sets, counts: &mut Counts, set: u32, way: u8, place: CachedLine)
    requires set { set < length sets.old }
    requires way { way < length (set_in sets.old set) }
    requires rmid { place.rmid < length counts.old }
    requires room { sum_below (length counts.old) (slice_index counts.old) < 2 ^ 64 - 1 }
    requires counted { IfSome (place_in (set_in sets.old set) way) (λ p. IsCounted counts.old p.rmid) }
    ensures put { sets.new ≡ slice_set sets.old set (slice_set (set_in sets.old set) way (Some place)) }
    ensures size { length counts.new ≡ length counts.old }
    ensures counts { Recounts counts.old counts.new (set_in sets.old set) place (Filled way) }
{
    let left = sets.put(set, way, place);
    recount(counts, left, place.rmid);
}

/// Empties the way of a set that holds a line, and answers it.
pub fn drop_line(sets: &mut Sets, counts: &mut Counts, set: u32, line: u64) -> Option<u8>
    requires set { set < length sets.old }
    requires counted { (way : ℕ) → IfSome (place_in (set_in sets.old set) way) (λ p. IsCounted counts.old p.rmid) }
    ensures dropped { Drops sets.old sets.new set line result }
    ensures size { length counts.new ≡ length counts.old }
    ensures counts { Uncounts counts.old counts.new (set_in sets.old set) result }
{
    match sets.find(set, line) {
        Some(way) => {
            empty(sets, counts, set, way);
            Some(way)
        }
        None => None,
    }
}

// Empties a way of a set.
fn empty(sets: &mut Sets, counts: &mut Counts, set: u32, way: u8)
    requires set { set < length sets.old }
    requires way { way < length (set_in sets.old set) }
    requires counted { IfSome (place_in (set_in sets.old set) way) (λ p. IsCounted counts.old p.rmid) }
    ensures emptied { sets.new ≡ slice_set sets.old set (slice_set (set_in sets.old set) way None) }
    ensures size { length counts.new ≡ length counts.old }
    ensures counts { Uncounts counts.old counts.new (set_in sets.old set) (Some way) }
{
    if let Some(left) = sets.empty(set, way) {
        counts.sub(left);
    }
}

// One line more of an RMID, and one less of that whose line left.
fn recount(counts: &mut Counts, left: Option<u16>, rmid: u16)
    requires rmid { rmid < length counts.old }
    requires room { sum_below (length counts.old) (slice_index counts.old) < 2 ^ 64 - 1 }
    requires left { IfSome left (λ r. IsCounted counts.old r) }
    ensures size { length counts.new ≡ length counts.old }
    ensures counts { (r : ℕ) → slice_index counts.new r + one_if (is_rmid left r) ≡ slice_index counts.old r + one_if (rmid == r) }
{
    counts.add(rmid);
    if let Some(left) = left {
        counts.sub(left);
    }
}
