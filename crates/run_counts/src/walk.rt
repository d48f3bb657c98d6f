//! One walk over the entries of slices.
ghost use Rattle.std.specs.Prelude.{◌≡◌, ℕ, List, ◌+◌, ◌*◌, ◌/◌, ◌<◌, ◌≤◌, ◌^◌, ◌∷◌, drop, false, length, not, IfOk, OnOk};
ghost use Rattle.cache_core.specs.Filled.{empties};
ghost use Rattle.cache_core.specs.History.{decided, held, lines_of, valid_of};
ghost use Rattle.cache_core.specs.declared.entry.SliceEntry.{SliceEntry};
ghost use Rattle.machine.specs.Maps.{parameters_of};
ghost use Rattle.cache_core.specs.Whats.{is_access, is_access_of};
ghost use Rattle.run_counts.specs.Occupancies.{HasCounted, HasDecided, IsAtMost, OccupancyValue, Suits, lines_told};
ghost use Rattle.run_counts.specs.Tallies.{IsFewWith, all_with, at_with, counted, counted_all, nothing};
ghost use Rattle.run_counts.specs.declared.line_counts.TheConstants.{MOST_COUNT};
ghost use Rattle.run_law.specs.Slices.{shape_in};

use crate::counting::places_of;
use crate::line_counts::Occupancy;
use crate::placed_line::PlacedLine;
use crate::running_tally::RunningTally;
use cache_core::{SliceEntry, What};
use machine::Machine;
use rc_base::NoMemory;
use std::alloc::Global;

/// What one walk over the entries of slices has counted: the accesses of each group so far, and the lines in the slices of a
/// domain.
#[derive(Drop)]
pub(crate) struct Walk {
    pub(crate) tally: RunningTally,
    pub(crate) lines: Occupancy,
}

impl Walk {
    /// Nothing was counted.
    pub(crate) fn create(alloc: Global, machine: &Machine) -> Result<Walk, NoMemory>
        ensures suits { IfOk result (λ w. Suits (parameters_of machine.now) w.lines) }
        ensures groups { IfOk result (λ w. (gid : ℕ) → at_with w.tally.tally w.tally.streak gid ≡ nothing) }
        ensures all { IfOk result (λ w. all_with w.tally.tally w.tally.streak ≡ nothing) }
    {
        let lines = Occupancy::create(alloc, machine)?;
        Ok(Walk {
            tally: RunningTally::create(alloc),
            lines,
        })
    }

    // Counts an entry, and says whether an earlier entry could have left a line. Of an access that hit the tally alone is told.
    #[inline]
    fn take(&mut self, machine: &Machine, i: u32, entry: &SliceEntry) -> Result<bool, NoMemory>
        requires sets { length self.old.lines.seen ≡ machine.now.sets }
        requires lines { IsAtMost (MOST_COUNT / 2) self.old.lines }
        requires few { IsFewWith (2 ^ 63) self.old.tally.tally self.old.tally.streak }
        ensures groups { OnOk result ((gid : ℕ) → at_with self.new.tally.tally self.new.tally.streak gid ≡ counted (is_access_of gid) (at_with self.old.tally.tally self.old.tally.streak gid) entry.now.what) }
        ensures all { OnOk result (all_with self.new.tally.tally self.new.tally.streak ≡ counted is_access (all_with self.old.tally.tally self.old.tally.streak) entry.now.what) }
        ensures more { IfOk result (λ more. more ≡ not (empties entry.now.what)) }
        ensures counted { OnOk result ((base : OccupancyValue) (es : List SliceEntry) → HasDecided (shape_in (parameters_of machine.now) i) base (decided (shape_in (parameters_of machine.now) i) es) self.old.lines
            → HasCounted (shape_in (parameters_of machine.now) i) base (λ s w. held (shape_in (parameters_of machine.now) i) (entry.now ∷ es) s w) self.new.lines) }
        ensures decided { OnOk result ((base : OccupancyValue) (es : List SliceEntry) → empties entry.now.what ≡ false → HasDecided (shape_in (parameters_of machine.now) i) base (decided (shape_in (parameters_of machine.now) i) es) self.old.lines
            → HasDecided (shape_in (parameters_of machine.now) i) base (decided (shape_in (parameters_of machine.now) i) (entry.now ∷ es)) self.new.lines) }
    {
        match entry.what {
            What::Access {
                owner,
                hit: true,
                ..
            } => {
                self.tally.add_hit(owner.0)?;
                Ok(true)
            }
            What::Access {
                owner,
                line,
                way,
                rmid,
                ..
            } => {
                self.tally.add_miss(owner.0)?;
                self.lines.fill(machine, i, PlacedLine { line, way }, rmid);
                Ok(true)
            }
            _ => Ok(self.lines.take_change(machine, i, entry)),
        }
    }

    // Counts the entries of slice i from the last one back, until no earlier entry can have left a line, and returns how many
    // stand before.
    fn settle(
        &mut self,
        machine: &Machine,
        i: u32,
        entries: &[SliceEntry],
    ) -> Result<usize, NoMemory>
        requires sets { length self.old.lines.seen ≡ machine.now.sets }
        requires lines { IsAtMost (MOST_COUNT / 4) self.old.lines }
        requires few { IsFewWith (31 * 2 ^ 58) self.old.tally.tally self.old.tally.streak }
        ensures within { IfOk result (λ left. left ≤ length entries.now) }
        ensures groups { IfOk result (λ left. (gid : ℕ) → at_with self.new.tally.tally self.new.tally.streak gid ≡ counted_all (is_access_of gid) (at_with self.old.tally.tally self.old.tally.streak gid) (drop left entries.now)) }
        ensures all { IfOk result (λ left. all_with self.new.tally.tally self.new.tally.streak ≡ counted_all is_access (all_with self.old.tally.tally self.old.tally.streak) (drop left entries.now)) }
        ensures sets { OnOk result (length self.new.lines.seen ≡ length self.old.lines.seen) }
        ensures rmids { OnOk result (length self.new.lines.counts ≡ length self.old.lines.counts) }
        ensures counts { OnOk result ((r : ℕ) → r < length self.old.lines.counts → lines_told self.new.lines r ≡ lines_told self.old.lines r + lines_of (shape_in (parameters_of machine.now) i) entries.now r) }
        ensures valid { OnOk result (self.new.lines.valid ≡ self.old.lines.valid + valid_of (shape_in (parameters_of machine.now) i) entries.now) }
    {
        self.lines.begin_slice();
        let full = self.lines.valid() + places_of(machine);
        let mut left = entries.len();
        // Where each place holds a line, no earlier entry can have left one.
        while left > 0 && self.lines.valid() < full {
            left -= 1;
            let more = self.take(machine, i, &entries[left])?;
            if !more {
                return Ok(left);
            }
        }
        Ok(left)
    }

    /// Counts the accesses among the entries of slice i, and the lines that they left, each entry once.
    pub(crate) fn take_slice(
        &mut self,
        machine: &Machine,
        i: u32,
        entries: &[SliceEntry],
    ) -> Result<(), NoMemory>
        requires sets { length self.old.lines.seen ≡ machine.now.sets }
        requires lines { IsAtMost (MOST_COUNT / 4) self.old.lines }
        requires few { IsFewWith (31 * 2 ^ 58) self.old.tally.tally self.old.tally.streak }
        ensures groups { OnOk result ((gid : ℕ) → at_with self.new.tally.tally self.new.tally.streak gid ≡ counted_all (is_access_of gid) (at_with self.old.tally.tally self.old.tally.streak gid) entries.now) }
        ensures all { OnOk result (all_with self.new.tally.tally self.new.tally.streak ≡ counted_all is_access (all_with self.old.tally.tally self.old.tally.streak) entries.now) }
        ensures length { length entries.now < 2 ^ 58 }
        ensures sets { OnOk result (length self.new.lines.seen ≡ length self.old.lines.seen) }
        ensures rmids { OnOk result (length self.new.lines.counts ≡ length self.old.lines.counts) }
        ensures counts { OnOk result ((r : ℕ) → r < length self.old.lines.counts → lines_told self.new.lines r ≡ lines_told self.old.lines r + lines_of (shape_in (parameters_of machine.now) i) entries.now r) }
        ensures valid { OnOk result (self.new.lines.valid ≡ self.old.lines.valid + valid_of (shape_in (parameters_of machine.now) i) entries.now) }
    {
        let left = self.settle(machine, i, entries)?;
        // The entries before change no line: what is left of them is the tally.
        self.tally.take_all(&entries[..left])?;
        Ok(())
    }
}
