//! The caches of one level.
ghost use Rattle.std.specs.Prelude.{◌≡◌, All, List, [], length, map, IfOk, OnOk};
ghost use Rattle.cache_core.specs.History.{IsLegal, shape_of};
ghost use Rattle.cache_core.specs.declared.entry.SliceEntry.{SliceEntry};
ghost use Rattle.machine.specs.Maps.{parameters_of};
ghost use Rattle.pair_play.specs.Histories.{AddsAccessIn, AreFresh, AreTaken, CanAccess, CanFlush, HasRoom, IsNotAfter, KeepShapes, all_with_flush, histories_of};
ghost use Rattle.run_law.specs.Entries.{entries_of};

use crate::recorded_cache::RecordedCache;
use cache_core::SliceEntry;
use machine::Machine;
use rc_base::{NoMemory, Tag};
use std::alloc::Global;
use std::marker::Model;

/// The caches of one level, one for each domain of a machine, each with its history.
#[derive(Drop)]
pub struct Level {
    machine: Machine,
    caches: Vec<RecordedCache>,
}

impl Model for Level {
    ghost use Rattle.std.specs.Prelude.{◌≡◌, All};
    ghost use Rattle.cache_core.specs.History.{shape_of};
    ghost use Rattle.machine.specs.Maps.{parameters_of};
    ghost use Rattle.pair_play.specs.Histories.{HasShape, LevelValue, histories_of};

    ghost Value = { LevelValue };

    ghost view = { λ l. record { parameters = parameters_of l.machine; histories = histories_of l.caches.items } };

    ghost invariant = { λ l. (l.machine.slices ≡ 1) × All (HasShape (shape_of (parameters_of l.machine) 0)) l.caches.items };
}

// The caches of all domains, empty.
fn fresh_caches(alloc: Global, m: &Machine) -> Result<Vec<RecordedCache>, NoMemory>
    ensures { IfOk result (λ caches. AreFresh (parameters_of m.now) m.now.domains caches.items) }
{
    let mut caches = Vec::new(alloc);
    for domain in 0..m.domains {
        caches.push(RecordedCache::create(alloc, m, domain)?)?;
    }
    Ok(caches)
}

// The histories of caches alone.
fn take_histories(
    alloc: Global,
    caches: Vec<RecordedCache>,
) -> Result<Vec<Vec<SliceEntry>>, NoMemory>
    ensures { IfOk result (λ all. AreTaken caches.items (map entries_of all.items)) }
{
    let mut all = Vec::new(alloc);
    for cache in caches {
        all.push(cache.into_history())?;
    }
    Ok(all)
}

// Empties each cache after a command of this epoch.
fn flush_each(caches: &mut [RecordedCache], op: u32, epoch: u64) -> Result<(), NoMemory>
    requires floors { All (IsNotAfter epoch) (histories_of caches.old) }
    requires rooms { All HasRoom (histories_of caches.old) }
    ensures shapes { KeepShapes caches.old caches.new }
    ensures entries { OnOk result (histories_of caches.new ≡ all_with_flush op epoch (histories_of caches.old)) }
{
    for cache in caches {
        cache.flush(op, epoch)?;
    }
    Ok(())
}

impl Level {
    /// The caches of all domains of a machine, empty, with empty histories.
    pub fn create(alloc: Global, m: &Machine) -> Result<Level, NoMemory>
        requires { m.now.slices ≡ 1 }
        ensures parameters { IfOk result (λ l. l.parameters ≡ parameters_of m.now) }
        ensures one_each { IfOk result (λ l. length l.histories ≡ m.now.domains) }
        ensures empty { IfOk result (λ l. All (λ (h : List SliceEntry). h ≡ []) l.histories) }
    {
        let caches = fresh_caches(alloc, m)?;
        Ok(Level {
            machine: *m,
            caches,
        })
    }

    /// Makes the access of an op in the domain of its tag, and answers whether it hit. The tag is not older than the last flush
    /// there, and has RMID 0.
    pub fn access(&mut self, op: u32, tag: &Tag, line: u64) -> Result<bool, NoMemory>
        requires { CanAccess self.old tag.now }
        ensures parameters { self.new.parameters ≡ self.old.parameters }
        ensures entry { IfOk result (λ hit. AddsAccessIn op tag.now line hit self.old.histories self.new.histories) }
    {
        self.caches[usize::from(tag.domain)].access(op, tag, line)
    }

    /// Empties the caches of all domains after a command of this epoch.
    pub fn flush(&mut self, op: u32, epoch: u64) -> Result<(), NoMemory>
        requires { CanFlush self.old epoch }
        ensures parameters { self.new.parameters ≡ self.old.parameters }
        ensures entries { OnOk result (self.new.histories ≡ all_with_flush op epoch self.old.histories) }
    {
        flush_each(&mut self.caches, op, epoch)
    }

    /// The histories alone, by domain. Each is legal.
    pub fn into_histories(self, alloc: Global) -> Result<Vec<Vec<SliceEntry>>, NoMemory>
        ensures histories { IfOk result (λ all. map entries_of all.items ≡ self.histories) }
        ensures legal { OnOk result (All (IsLegal (shape_of self.parameters 0)) self.histories) }
    {
        take_histories(alloc, self.caches)
    }
}
