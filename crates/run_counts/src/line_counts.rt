//! How many lines each RMID has in slices.
ghost use Rattle.std.specs.Prelude.{◌≡◌, ℕ, ◌+◌, ◌<◌, ◌≤◌, ◌^◌, ◌==◌, ◌&&◌, ◌||◌, false, IfOk, length};
ghost use Rattle.cbm.specs.Masks.{has_way};
ghost use Rattle.lists.specs.Sums.{one_if};
ghost use Rattle.run_counts.specs.Occupancies.{AddsPlace, IsAtMost, SkipsPlace, is_seen, lines_told};
ghost use Rattle.run_counts.specs.declared.line_counts.TheConstants.{MOST_COUNT};

use crate::domain_lines::DomainLines;
use cbm::has_way;
use machine::Machine;
use rc_base::NoMemory;
use std::alloc::Global;
use std::marker::Model;

/// No count gets greater than this while it may still grow.
pub(crate) const MOST_COUNT: u64 = 1 << 62;

/// How many lines each RMID has in the slices of a domain, and how many there are, while they are counted. The entries of a slice are counted from
/// the last one back: a place holds what the last entry that decides it left there, so that a word for each set, with a bit
/// for each way, says which places are done with.
#[derive(Drop)]
pub(crate) struct Occupancy {
    seen: Vec<u32>,
    counts: Vec<u64>,
    valid: u64,
}

impl Model for Occupancy {
    ghost use Rattle.run_counts.specs.Occupancies.{OccupancyValue};

    ghost Value = { OccupancyValue };

    ghost view = { λ o. record { seen = o.seen.items; counts = o.counts.items; valid = o.valid } };
}

// A word with this way too.
fn with_way(word: u32, way: u8) -> u32
    requires { way < 32 }
    ensures { (other : ℕ) → other < 32 → has_way result other ≡ (has_way word other || (way == other)) }
{
    word | (1 << way)
}

impl Occupancy {
    /// No line, with room for the sets and the RMIDs of a machine.
    pub(crate) fn create(alloc: Global, machine: &Machine) -> Result<Occupancy, NoMemory>
        ensures sets { IfOk result (λ o. length o.seen ≡ machine.now.sets) }
        ensures rmids { IfOk result (λ o. length o.counts ≡ machine.now.rmids) }
    {
        Ok(Occupancy {
            seen: vec![in alloc; 0; machine.sets as usize]?,
            counts: vec![in alloc; 0; usize::from(machine.rmids)]?,
            valid: 0,
        })
    }

    /// Begins a domain: no RMID has a line.
    pub(crate) fn clear(&mut self)
        ensures sets { length self.new.seen ≡ length self.old.seen }
        ensures rmids { length self.new.counts ≡ length self.old.counts }
        ensures counts { (r : ℕ) → lines_told self.new r ≡ 0 }
        ensures valid { self.new.valid ≡ 0 }
    {
        for count in self.counts.iter_mut() {
            *count = 0;
        }
        self.valid = 0;
    }

    /// Begins a slice: no place is done with.
    pub(crate) fn begin_slice(&mut self)
        ensures sets { length self.new.seen ≡ length self.old.seen }
        ensures seen { (set way : ℕ) → is_seen self.new set way ≡ false }
        ensures counts { self.new.counts ≡ self.old.counts }
        ensures valid { self.new.valid ≡ self.old.valid }
    {
        for word in self.seen.iter_mut() {
            *word = 0;
        }
    }

    // Counts one line more of an RMID.
    fn count(&mut self, rmid: u16)
        requires { IsAtMost MOST_COUNT self.old }
        ensures seen { self.new.seen ≡ self.old.seen }
        ensures rmids { length self.new.counts ≡ length self.old.counts }
        ensures counts { (r : ℕ) → r < length self.old.counts → lines_told self.new r ≡ lines_told self.old r + one_if (rmid == r) }
        ensures valid { self.new.valid ≡ self.old.valid + 1 }
    {
        if let Some(count) = self.counts.get_mut(usize::from(rmid)) {
            *count += 1;
        }
        self.valid += 1;
    }

    /// Marks a place that was left empty as done with, unless a later entry decided it.
    pub(crate) fn skip(&mut self, set: u32, way: u8)
        requires set { set < length self.old.seen }
        requires way { way < 32 }
        ensures { SkipsPlace self.old self.new set way }
    {
        let word = self.seen[set as usize];
        self.seen[set as usize] = with_way(word, way);
    }

    /// Counts the line of a place for an RMID, unless a later entry decided the place.
    pub(crate) fn put(&mut self, set: u32, way: u8, rmid: u16)
        requires set { set < length self.old.seen }
        requires way { way < 32 }
        requires few { IsAtMost MOST_COUNT self.old }
        ensures { AddsPlace self.old self.new set way rmid }
    {
        let word = self.seen[set as usize];
        if !has_way(word, way) {
            self.seen[set as usize] = with_way(word, way);
            self.count(rmid);
        }
    }

    /// The lines that were counted since `clear`.
    pub(crate) fn told(&self) -> Result<DomainLines, NoMemory>
        ensures counts { IfOk result (λ d. d.counts ≡ self.now.counts) }
        ensures valid { IfOk result (λ d. d.valid ≡ self.now.valid) }
    {
        let counts = self.counts.clone()?;
        Ok(DomainLines::of(counts, self.valid))
    }

    /// How many lines there are.
    pub(crate) fn valid(&self) -> u64
        ensures { result ≡ self.now.valid }
    {
        self.valid
    }
}
