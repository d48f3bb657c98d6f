//! What goes into the cells of the slices.
ghost use Rattle.std.specs.Prelude.{◌≡◌, ◌<◌, ◌≤◌, ◌++◌, [], IfOk, length};
ghost use Rattle.cache_core.specs.Stands.{StandsFor};
ghost use Rattle.live_run.specs.Openings.{AreFirstShares, AreOfSlices, AreParts};
ghost use Rattle.machine.specs.Maps.{parameters_of};
ghost use Rattle.machine.specs.Slices.{slice_count};
ghost use Rattle.run_law.specs.Slices.{shape_in};
ghost use Rattle.script_ops.specs.Values.{IsLawful};
ghost use Rattle.seen_journal.specs.Passes.{HasSeen};

use crate::log::Log;
use crate::run_names::{NamedTable, RunNames, StepShare};
use cache_core::{Cache, SliceEntry};
use machine::Machine;
use rc_base::NoMemory;
use run_law::TreeEntry;
use seen_journal::{Journal, Pass};
use std::alloc::Global;
use std::marker::Model;

/// A cache, its journal, a pass of the tree's journal, and the share that has the journal as a part of the machine of steps.
#[derive(Drop)]
pub struct Part<N: RunNames> {
    pub(crate) cache: Cache,
    pub(crate) journal: Journal<SliceEntry>,
    pub(crate) tree: Pass<TreeEntry>,
    pub(crate) share: StepShare<N>,
}

impl<N: RunNames> Model for Part<N> {
    ghost use Rattle.live_run.specs.Cells.{SliceCellValue};

    ghost Value = { SliceCellValue };

    ghost view = { λ p. record { cache = p.cache; journal = p.journal; tree = p.tree; share = p.share } };
}

impl<N: RunNames> Part<N> {
    /// The pass has seen the journal's whole list.
    pub(crate) fn show(&mut self, pass: &mut Pass<SliceEntry>)
        requires { pass.old.name ≡ self.old.journal.name }
        ensures same { self.new ≡ self.old }
        ensures seen { HasSeen pass.old pass.new self.old.journal.entries }
    {
        self.journal.show(pass);
    }

    /// Gives its part of the machine of steps to a share.
    pub(crate) fn give(&mut self, all: &mut StepShare<N>)
        requires table { self.old.share.table ≡ all.old.table }
        ensures all { (all.new.table ≡ all.old.table) × (all.new.parts ≡ self.old.share.parts ++ all.old.parts) }
        ensures same { (self.new.cache ≡ self.old.cache) × (self.new.journal ≡ self.old.journal) × (self.new.tree ≡ self.old.tree) × (self.new.share.table ≡ self.old.share.table) }
    {
        all.absorb(&mut self.share);
    }
}

// An empty cache, by the number of its slice over all domains.
fn empty_cache(alloc: Global, m: &Machine, i: usize) -> Result<Cache, NoMemory>
    requires { i < slice_count (parameters_of m.now) }
    ensures shape { IfOk result (λ c. c.shape ≡ shape_in (parameters_of m.now) i) }
    ensures rmids { IfOk result (λ c. c.rmids ≡ m.now.rmids) }
    ensures empty { IfOk result (λ c. StandsFor c []) }
{
    let slices = usize::from(m.slices);
    Cache::create(alloc, m, (i / slices) as u8, (i % slices) as u8)
}

/// What goes into the cells of all slices, the last slice first, by their journals. NoMemory where there is no room for it.
pub(crate) fn fresh_parts<N: RunNames, T: NamedTable>(
    alloc: Global,
    m: &Machine,
    tree: &mut Log<TreeEntry>,
    logs: Vec<Log<SliceEntry>>,
    shares: Vec<StepShare<N>>,
) -> Result<Vec<Part<N>>, NoMemory>
    requires lawful { IsLawful N.script }
    requires machine { parameters_of m.now ≡ N.script.machine }
    requires name { tree.old.name ≡ N.tree }
    requires left { length logs.items ≤ tree.old.left }
    requires logs { AreOfSlices N.slices (slice_count N.script.machine) logs.items }
    requires shares { AreFirstShares T.table (slice_count N.script.machine) shares.items }
    ensures name { tree.new.name ≡ tree.old.name }
    ensures parts { IfOk result (λ parts. AreParts N.script T.table N.tree N.slices 0 parts.items) }
{
    let mut logs = logs;
    let mut shares = shares;
    let mut parts = Vec::new(alloc);
    while !logs.is_empty() {
        let journal = logs.take_last().into_journal();
        let cache = empty_cache(alloc, m, logs.len())?;
        let tree = tree.take();
        let share = shares.take_last();
        parts.push(Part {
            cache,
            journal,
            tree,
            share,
        })?;
    }
    Ok(parts)
}
