//! One cache with its history.
ghost use Rattle.std.specs.Prelude.{◌≡◌, ◌%◌, ◌^◌, ◌<◌, ◌≤◌, [], length, IfOk, OnOk, OnErr};
ghost use Rattle.cache_core.specs.History.{IsLegal, IsOwn, floor_of, shape_of};
ghost use Rattle.machine.specs.Maps.{parameters_of};
ghost use Rattle.pair_play.specs.Histories.{AddsAccess, with_flush};

use cache_core::{Cache, SliceEntry, What};
use machine::Machine;
use rc_base::{NoMemory, Tag};
use std::alloc::Global;
use std::marker::Model;

/// The cache of a domain, in one slice, and all that was entered in it. The history is legal: it says what the cache did.
#[derive(Drop)]
pub struct RecordedCache {
    cache: Cache,
    history: Vec<SliceEntry>,
}

impl Model for RecordedCache {
    ghost use Rattle.std.specs.Prelude.{◌<◌};
    ghost use Rattle.cache_core.specs.Stands.{StandsFor};
    ghost use Rattle.pair_play.specs.Histories.{RecordedValue};

    ghost Value = { RecordedValue };

    ghost view = { λ c. record { shape = c.cache.shape; history = c.history.items } };

    ghost invariant = { λ c. StandsFor c.cache c.history.items × (0 < c.cache.rmids) };
}

impl RecordedCache {
    /// The cache of a domain, empty, with an empty history.
    pub(crate) fn create(alloc: Global, m: &Machine, domain: u8) -> Result<RecordedCache, NoMemory>
        requires { domain < m.now.domains }
        ensures shape { IfOk result (λ c. c.shape ≡ shape_of (parameters_of m.now) 0) }
        ensures empty { IfOk result (λ c. c.history ≡ []) }
    {
        let cache = Cache::create(alloc, m, domain, 0)?;
        Ok(RecordedCache {
            cache,
            history: Vec::new(alloc),
        })
    }

    /// Makes the access of an op, and answers whether it hit. The tag is not older than the last flush, and has RMID 0.
    pub(crate) fn access(&mut self, op: u32, tag: &Tag, line: u64) -> Result<bool, NoMemory>
        requires own { IsOwn self.old.shape (line % self.old.shape.sets) }
        requires mask { 0 < tag.now.mask % 2 ^ self.old.shape.ways }
        requires rmid { tag.now.rmid ≡ 0 }
        requires floor { floor_of self.old.history ≤ tag.now.epoch }
        requires room { length self.old.history < 2 ^ 32 }
        ensures shape { self.new.shape ≡ self.old.shape }
        ensures entry { IfOk result (λ hit. AddsAccess op tag.now line hit self.old.history self.new.history) }
        ensures err { OnErr result (self.new ≡ self.old) }
    {
        self.history.reserve(1)?;
        let Some((hit, way)) = self.cache.access(tag, line).hit_and_way() else {
            unreachable!()
        };
        self.history.push_reserved(SliceEntry {
            thread: 0,
            op,
            epoch: tag.epoch,
            what: What::Access {
                hit,
                way,
                owner: tag.owner,
                rmid: tag.rmid,
                mask: tag.mask,
                line,
            },
        });
        Ok(hit)
    }

    /// Empties the cache after a command of this epoch.
    pub(crate) fn flush(&mut self, op: u32, epoch: u64) -> Result<(), NoMemory>
        requires floor { floor_of self.old.history ≤ epoch }
        requires room { length self.old.history < 2 ^ 32 }
        ensures shape { self.new.shape ≡ self.old.shape }
        ensures entry { OnOk result (self.new.history ≡ with_flush op epoch self.old.history) }
        ensures err { OnErr result (self.new ≡ self.old) }
    {
        self.history.reserve(1)?;
        self.cache.flush(epoch);
        self.history.push_reserved(SliceEntry {
            thread: 0,
            op,
            epoch,
            what: What::Flush,
        });
        Ok(())
    }

    /// The history alone, which is legal.
    pub fn into_history(self) -> Vec<SliceEntry>
        ensures history { result.items ≡ self.history }
        ensures legal { IsLegal self.shape self.history }
    {
        self.history
    }
}
