//! One slice while a script is played.
ghost use Rattle.std.specs.Prelude.{◌≡◌, ◌+◌, ◌%◌, ◌^◌, ◌<◌, ◌≤◌, [], ◌∷◌, ◌++◌, length, IfOk};
ghost use Rattle.cache_core.specs.History.{IsOwn};
ghost use Rattle.cache_core.specs.Stands.{entry as entry_of};
ghost use Rattle.cache_core.specs.declared.entry.What.TheVariants as whats;
ghost use Rattle.machine.specs.Maps.{parameters_of};
ghost use Rattle.machine.specs.Slices.{slice_number};
ghost use Rattle.step_world.specs.Needs.{CanFollow};
ghost use Rattle.step_world.specs.Slices.{FollowsUp, CountsLines, TouchesLine, IsFresh};

use crate::turn::Turn;
use crate::{Reached, access_of, enact, entry};
use cache_core::{Cache, SliceEntry, Touched, What};
use machine::Machine;
use rc_base::{NoMemory, Tag};
use std::alloc::Global;
use std::marker::Model;
use tree_core::Follow;

/// One slice while a script is played: its cache, its entries so far, and room for those to come.
#[derive(Drop)]
pub struct Slice {
    cache: Cache,
    entries: Vec<SliceEntry>,
}

impl Model for Slice {
    ghost use Rattle.std.specs.Prelude.{vec_capacity};
    ghost use Rattle.step_world.specs.Slices.{SliceValue};

    ghost Value = { SliceValue };

    ghost view = { λ s. record { cache = s.cache; entries = s.entries.items; room = vec_capacity s.entries } };
}

impl Slice {
    /// This slice of the cache of a domain, empty, with room for so many entries.
    pub(crate) fn create(
        alloc: Global,
        m: &Machine,
        domain: u8,
        slice: u8,
        room: u64,
    ) -> Result<Slice, NoMemory>
        requires domain { domain < m.now.domains }
        requires slice { slice < m.now.slices }
        ensures fresh { IfOk result (λ s. IsFresh (parameters_of m.now) (slice_number (parameters_of m.now) domain slice) s) }
        ensures room { IfOk result (λ s. s.room ≡ room) }
    {
        let cache = Cache::create(alloc, m, domain, slice)?;
        let entries = Vec::with_capacity(alloc, room as usize)?;
        Ok(Slice { cache, entries })
    }

    /// Makes the access of an op, and notes it where its tag is not stale.
    #[inline(always)]
    pub(crate) fn access(&mut self, turn: Turn, tag: &Tag, line: u64) -> Touched
        requires own { IsOwn self.old.cache.shape (line % self.old.cache.shape.sets) }
        requires mask { 0 < tag.now.mask % 2 ^ self.old.cache.shape.ways }
        requires rmid { tag.now.rmid < self.old.cache.rmids }
        requires clock { self.old.cache.clock < 2 ^ 32 }
        requires room { length self.old.entries < self.old.room }
        ensures { TouchesLine turn.thread turn.number tag.now line self.old self.new result }
    {
        let touched = self.cache.access(tag, line);
        if let Some((hit, way)) = touched.hit_and_way() {
            self.note_access(turn, tag, line, Reached { hit, way });
        }
        touched
    }

    /// Counts the lines of an RMID for a command, and notes the look.
    pub(crate) fn look(&mut self, turn: Turn, epoch: u64, rmid: u16) -> u64
        requires rmid { rmid < self.old.cache.rmids }
        requires room { length self.old.entries < self.old.room }
        ensures { CountsLines turn.thread turn.number epoch rmid result self.old self.new }
    {
        let lines = self.cache.look(rmid);
        self.note(turn, epoch, What::Look { rmid, lines });
        lines
    }

    /// Does what follows a command, and notes it. A touch is an access of the command's op with the epoch of the command, so that
    /// it is never stale.
    pub(crate) fn follow(&mut self, turn: Turn, epoch: u64, follow: Follow)
        requires can { CanFollow self.old.cache.shape self.old.cache.rmids follow }
        requires floor { self.old.cache.floor ≤ epoch }
        requires clock { self.old.cache.clock < 2 ^ 32 }
        requires room { length self.old.entries < self.old.room }
        ensures { FollowsUp turn.thread turn.number epoch follow self.old self.new }
    {
        let what = enact(&mut self.cache, epoch, follow);
        self.note(turn, epoch, what);
    }

    // Notes the entry of an access that came to this.
    #[inline(always)]
    fn note_access(&mut self, turn: Turn, tag: &Tag, line: u64, reached: Reached)
        requires room { length self.old.entries < self.old.room }
        ensures cache { self.new.cache ≡ self.old.cache }
        ensures room { self.new.room ≡ self.old.room }
        ensures entries { self.new.entries ≡ self.old.entries ++ entry_of turn.thread turn.number tag.now.epoch (whats.Access reached.hit reached.way tag.now.owner tag.now.rmid tag.now.mask line) ∷ [] }
    {
        self.note(turn, tag.epoch, access_of(tag, line, reached));
    }

    // Notes the entry of a step.
    #[inline(always)]
    fn note(&mut self, turn: Turn, epoch: u64, what: What)
        requires room { length self.old.entries < self.old.room }
        ensures cache { self.new.cache ≡ self.old.cache }
        ensures room { self.new.room ≡ self.old.room }
        ensures entries { self.new.entries ≡ self.old.entries ++ entry_of turn.thread turn.number epoch what ∷ [] }
    {
        self.entries
            .push_reserved(entry(turn.thread, turn.number, epoch, what));
    }

    /// Its entries.
    pub(crate) fn into_entries(self) -> Vec<SliceEntry>
        ensures { result.items ≡ self.entries }
    {
        self.entries
    }
}
