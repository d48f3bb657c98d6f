//! An entry that is added to the replay of a slice.
ghost use Rattle.std.specs.Prelude.{◌≡◌, ◌+◌, ◌-◌, ◌^◌, ◌<◌, ◌≤◌, ◌++◌, ◌∷◌, [], IfSome, Some, length, true};
ghost use Rattle.cache_core.specs.History.{EntryMayFollow, floor_of, is_own};
ghost use Rattle.cache_core.specs.declared.entry.What.TheVariants.{Drop, Raise};
ghost use Rattle.journal_check.specs.Replays.{Empties, IsAccessOf, IsQuiet, IsRmidAfter, LeavesRegion, StandsFor, Writes};
ghost use Rattle.journal_check.specs.RmidCounts.{count_at};
ghost use Rattle.journal_check.specs.Slots.{place_at, rmid_of};

use crate::cached_line::CachedLine;
use crate::region::Region;
use crate::replay::Replay;
use crate::victims::Outcome;
use cache_core::{SliceEntry, What};

// The RMID of a place.
fn rmid_of(place: Option<CachedLine>) -> Option<u16>
    ensures { result ≡ rmid_of place }
{
    match place {
        Some(place) => Some(place.rmid),
        None => None,
    }
}

impl Replay {
    // Writes a place, and counts its line where the set is the slice's own.
    fn write(&mut self, set: u32, way: u8, place: Option<CachedLine>)
        requires set { set < self.old.slots.shape.sets }
        requires way { way < self.old.slots.shape.ways }
        requires left { is_own self.old.slots.shape set ≡ true → IfSome (rmid_of (place_at self.old.slots set way)) (λ r. 0 < count_at self.old.counts r) }
        requires came { IfSome (rmid_of place) (λ r. count_at self.old.counts r < 2 ^ 64 - 1) }
        ensures { Writes self.old self.new set way place }
    {
        if self.slots.is_own(set) {
            let left = self.slots.rmid(set, way);
            self.counts.recount(left, rmid_of(place));
        }
        self.slots.put(set, way, place);
    }

    // The RMID of a line after an access to a place.
    fn rmid_after(&self, set: u32, way: u8, hit: bool, rmid: u16) -> u16
        requires set { set < self.now.slots.shape.sets }
        requires way { way < self.now.slots.shape.ways }
        ensures { IsRmidAfter (place_at self.now.slots set way) hit rmid result }
    {
        if !hit {
            return rmid;
        }
        match self.slots.rmid(set, way) {
            Some(kept) => kept,
            None => rmid,
        }
    }

    // Empties every place, leaves a region, and raises the floor.
    fn empty(&mut self, epoch: u64, region: Region)
        requires slots { self.old.slots.generation < 2 ^ 64 - 1 }
        requires counts { self.old.counts.generation < 2 ^ 64 - 1 }
        ensures { Empties self.old self.new epoch region }
    {
        let lines = self.slots.region_lines(region.mask);
        self.slots.clear(region);
        self.counts.clear(lines);
        self.floor = epoch;
    }

    // Adds an access with this RMID, which hit or filled a way.
    fn add_access(&mut self, before: &[SliceEntry], entry: SliceEntry, outcome: Outcome, rmid: u16)
        requires few { length before.now < 2 ^ 64 - 1 }
        requires stands { StandsFor self.old.slots.shape before.now self.old }
        requires may { EntryMayFollow self.old.slots.shape before.now entry }
        requires what { IsAccessOf entry outcome.hit outcome.way rmid outcome.line }
        ensures { StandsFor self.old.slots.shape (before.now ++ entry ∷ []) self.new }
    {
        let _entry = entry;
        let set = self.slots.set_of(outcome.line);
        let place = CachedLine {
            line: outcome.line,
            rmid: self.rmid_after(set, outcome.way, outcome.hit, rmid),
            used: before.len() as u64 + 1,
        };
        self.write(set, outcome.way, Some(place));
    }

    // Adds a drop of a line from the way that held it.
    fn add_drop(&mut self, before: &[SliceEntry], entry: SliceEntry, line: u64, way: u8)
        requires few { length before.now < 2 ^ 64 - 1 }
        requires stands { StandsFor self.old.slots.shape before.now self.old }
        requires may { EntryMayFollow self.old.slots.shape before.now entry }
        requires what { entry.what ≡ Drop line (Some way) }
        ensures { StandsFor self.old.slots.shape (before.now ++ entry ∷ []) self.new }
    {
        let _entries = before;
        let _entry = entry;
        let set = self.slots.set_of(line);
        self.write(set, way, None);
    }

    // Adds a raise.
    fn add_raise(&mut self, before: &[SliceEntry], entry: SliceEntry)
        requires few { length before.now < 2 ^ 64 - 1 }
        requires stands { StandsFor self.old.slots.shape before.now self.old }
        requires may { EntryMayFollow self.old.slots.shape before.now entry }
        requires what { entry.what ≡ Raise }
        ensures { StandsFor self.old.slots.shape (before.now ++ entry ∷ []) self.new }
    {
        let _entries = before;
        self.floor = entry.epoch;
    }

    // Adds a flush, or a lock with its region.
    fn add_emptying(&mut self, before: &[SliceEntry], entry: SliceEntry, region: Region)
        requires few { length before.now < 2 ^ 64 - 1 }
        requires stands { StandsFor self.old.slots.shape before.now self.old }
        requires may { EntryMayFollow self.old.slots.shape before.now entry }
        requires low { floor_of before.now ≤ entry.epoch }
        requires what { LeavesRegion self.old.slots.shape before.now entry region }
        ensures { StandsFor self.old.slots.shape (before.now ++ entry ∷ []) self.new }
    {
        let _entries = before;
        self.empty(entry.epoch, region);
    }

    // Adds an entry that changes nothing.
    fn pass(&mut self, before: &[SliceEntry], entry: SliceEntry)
        requires stands { StandsFor self.old.slots.shape before.now self.old }
        requires quiet { IsQuiet self.old.slots.shape entry }
        ensures { StandsFor self.old.slots.shape (before.now ++ entry ∷ []) self.new }
    {
        let _entries = before;
        let _entry = entry;
    }

    /// Adds an entry that may follow.
    pub fn add(&mut self, before: &[SliceEntry], entry: SliceEntry)
        requires few { length before.now < 2 ^ 64 - 1 }
        requires stands { StandsFor self.old.slots.shape before.now self.old }
        requires may { EntryMayFollow self.old.slots.shape before.now entry }
        ensures { StandsFor self.old.slots.shape (before.now ++ entry ∷ []) self.new }
    {
        match entry.what {
            What::Access {
                hit,
                way,
                rmid,
                line,
                ..
            } => self.add_access(before, entry, Outcome { line, hit, way }, rmid),
            What::Drop {
                line,
                way: Some(way),
            } => self.add_drop(before, entry, line, way),
            What::Raise => self.add_raise(before, entry),
            What::Flush => self.add_emptying(before, entry, Region::none()),
            What::Lock { mask, first_line } => self.add_emptying(
                before,
                entry,
                Region {
                    mask,
                    first_line,
                    stamp: before.len() as u64 + 1,
                },
            ),
            What::Drop { way: None, .. } => self.pass(before, entry),
            What::Look { .. } => self.pass(before, entry),
        }
    }
}
