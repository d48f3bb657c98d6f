//! A slice, replayed entry by entry, and what may happen in it next.
ghost use Rattle.std.specs.Prelude.{◌≡◌, ◌%◌, ◌<◌, ◌≤◌, ◌↔◌, [], IfOk, IsTrue};
ghost use Rattle.cache_core.specs.Fills.{IsOutcome, IsPlaceOf};
ghost use Rattle.cache_core.specs.History.{MayHappen, floor_of, held, lines_of, shape_of, used};
ghost use Rattle.machine.specs.Maps.{parameters_of};
ghost use Rattle.journal_check.specs.Replays.{StandsFor};

use crate::rmid_counts::RmidCounts;
use crate::slots::Slots;
use crate::victims::{Outcome, is_outcome, is_place};
use cache_core::{SliceEntry, What};
use machine::Machine;
use rc_base::NoMemory;
use std::alloc::Global;

/// What a slice's entries so far leave: the places of every set of its domain, the lines of each RMID in its own sets, and the floor.
#[derive(Drop)]
pub struct Replay {
    pub slots: Slots,
    pub counts: RmidCounts,
    pub floor: u64,
}

impl Replay {
    /// A slice before its first entry.
    pub fn create(alloc: Global, m: &Machine, slice: u8) -> Result<Replay, NoMemory>
        requires { slice < m.now.slices }
        ensures { IfOk result (λ r. StandsFor (shape_of (parameters_of m.now) slice) [] r) }
    {
        let slots = Slots::create(alloc, m, slice)?;
        let counts = RmidCounts::create(alloc)?;
        Ok(Replay {
            slots,
            counts,
            floor: 0,
        })
    }

    // Whether an epoch is not below the floor.
    fn is_fresh(&self, before: &[SliceEntry], epoch: u64) -> bool
        requires { StandsFor self.now.slots.shape before.now self.now }
        ensures { IsTrue result ↔ (floor_of before.now ≤ epoch) }
    {
        let _entries = before;
        self.floor <= epoch
    }

    // Whether there are so many lines of an RMID.
    fn has_lines(&self, before: &[SliceEntry], rmid: u16, lines: u64) -> bool
        requires { StandsFor self.now.slots.shape before.now self.now }
        ensures { IsTrue result ↔ (lines ≡ lines_of self.now.slots.shape before.now rmid) }
    {
        let _entries = before;
        self.counts.of(rmid) == lines
    }

    // Whether the set of a line answers so to an access.
    fn answers(&self, before: &[SliceEntry], mask: u32, outcome: Outcome) -> bool
        requires { StandsFor self.now.slots.shape before.now self.now }
        ensures { let set = outcome.line % self.now.slots.shape.sets in IsTrue result ↔ IsOutcome self.now.slots.shape.ways mask (held self.now.slots.shape before.now set) (used self.now.slots.shape before.now set) outcome.line outcome.hit outcome.way }
    {
        let _entries = before;
        is_outcome(&self.slots, mask, outcome)
    }

    // Whether this way holds a line, or none where no way is given.
    fn holds(&self, before: &[SliceEntry], line: u64, way: Option<u8>) -> bool
        requires { StandsFor self.now.slots.shape before.now self.now }
        ensures { IsTrue result ↔ IsPlaceOf self.now.slots.shape.ways (held self.now.slots.shape before.now (line % self.now.slots.shape.sets)) line way }
    {
        let _entries = before;
        is_place(&self.slots, line, way)
    }

    /// Whether this may happen after these entries.
    pub fn may_happen(&self, before: &[SliceEntry], epoch: u64, what: What) -> bool
        requires { StandsFor self.now.slots.shape before.now self.now }
        ensures { IsTrue result ↔ MayHappen self.now.slots.shape before.now epoch what }
    {
        match what {
            What::Look { rmid, lines } => self.has_lines(before, rmid, lines),
            What::Access {
                hit,
                way,
                mask,
                line,
                ..
            } => self.is_fresh(before, epoch)
                && self.answers(before, mask, Outcome { line, hit, way }),
            What::Drop { line, way } => self.is_fresh(before, epoch)
                && self.holds(before, line, way),
            What::Raise => self.is_fresh(before, epoch),
            What::Flush => self.is_fresh(before, epoch),
            What::Lock { .. } => self.is_fresh(before, epoch),
        }
    }
}
