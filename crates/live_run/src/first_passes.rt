//! The threads before their first ops.
ghost use Rattle.std.specs.Prelude.{◌≤◌, IfOk, length, ◌≡◌, ℕ, ◌<◌, [], ◌∷◌, None, false};
ghost use Rattle.live_run.specs.Logs.{log_at};
ghost use Rattle.live_run.specs.Openings.{AreNumbered, AreSplit, AreFirst, AreGivenTo, AreNew, AreOfSlices, HaveGiven, IsFirst};
ghost use Rattle.live_run.specs.Quotas.{HaveQuotas};
ghost use Rattle.live_run.specs.Sharing.{IsShareOf};
ghost use Rattle.machine.specs.Slices.{slice_count};
ghost use Rattle.run_law.specs.Quotas.{AreCounted, commands_of};
ghost use Rattle.schedule_law.specs.LiveParts.{first_threads, resting_thread};
ghost use Rattle.script_ops.specs.Values.{IsLawful, ops_of, threads_of};
ghost use Rattle.seen_journal.specs.Passes.{new_pass};

use crate::log::Log;
use crate::passes::Passes;
use crate::run_names::{NamedTable, RunNames, StepShare};
use crate::seen::Seen;
use crate::thread_side::ThreadSide;
use cache_core::SliceEntry;
use rc_base::{NoMemory, TEXT_MAX, TextBuf};
use run_law::{LookLists, TreeEntry, command_counts};
use script_ops::Script;
use seen_journal::Pass;
use std::alloc::Global;
use std::marker::PhantomData;

/// The first parts of a share, so many, each as a share of its own. NoMemory where there is no room for them.
pub(crate) fn split_each<N: RunNames>(
    alloc: Global,
    share: &mut StepShare<N>,
    count: usize,
) -> Result<Vec<StepShare<N>>, NoMemory>
    requires parts { AreNumbered share.old.parts }
    requires many { count ≤ length share.old.parts }
    ensures { IfOk result (λ shares. AreSplit count share.old share.new shares.items) }
{
    let mut shares = Vec::with_capacity(alloc, count)?;
    for _ in 0..count {
        shares.push(share.split()?)?;
    }
    Ok(shares)
}

// The next pass of each journal. NoMemory where there is no room for them.
fn take_each(
    alloc: Global,
    logs: &mut Vec<Log<SliceEntry>>,
) -> Result<Vec<Pass<SliceEntry>>, NoMemory>
    requires { (i : ℕ) → i < length logs.old.items → 0 < (log_at logs.old.items i).left }
    ensures { IfOk result (λ passes. HaveGiven (length logs.old.items) logs.old.items logs.new.items passes.items) }
{
    let mut passes = Vec::new(alloc);
    for i in 0..logs.len() {
        passes.push(logs[i].take())?;
    }
    Ok(passes)
}

// The passes of a thread that has seen nothing: that of the tree's journal, and that of each slice's.
#[derive(Drop)]
struct FreshPasses {
    tree: Pass<TreeEntry>,
    slices: Vec<Pass<SliceEntry>>,
}

// A thread before its first op, which has so many commands.
fn first<N: RunNames, T: NamedTable>(
    alloc: Global,
    script: &Script,
    thread: u32,
    commands: u64,
    passes: FreshPasses,
    share: StepShare<N>,
) -> Result<Passes<N, T>, NoMemory>
    requires script { script.now ≡ N.script }
    requires quotas { HaveQuotas N.script N.tree N.slices }
    requires thread { thread < length (threads_of N.script) }
    requires commands { commands ≡ commands_of (ops_of N.script thread) }
    requires tree { passes.tree ≡ new_pass N.tree thread }
    requires slices { AreNew N.slices (slice_count N.script.machine) thread passes.slices.items }
    requires share { IsShareOf T.table (resting_thread thread 0 false [] None ∷ []) share }
    ensures { IfOk result (λ p. IsFirst thread p) }
{
    let looks = LookLists::create(alloc, script.machine(), script.ops(thread), commands)?;
    let shown = TextBuf::with_room(alloc, TEXT_MAX)?;
    let FreshPasses { tree, slices } = passes;
    let seen = Seen {
        thread,
        tree,
        slices,
        of: PhantomData,
    };
    Ok(Passes {
        side: ThreadSide {
            seen,
            share,
            cached: None,
        },
        next: 0,
        looks,
        shown,
        of: PhantomData,
    })
}

// All threads before their first ops, each with its part of `workers`. `counts` says how many commands each has. NoMemory where there
// is no room for their lists and texts.
fn all_first<N: RunNames, T: NamedTable>(
    alloc: Global,
    script: &Script,
    counts: &[u64],
    tree: &mut Log<TreeEntry>,
    slices: &mut Vec<Log<SliceEntry>>,
    workers: &mut StepShare<N>,
) -> Result<Vec<Passes<N, T>>, NoMemory>
    requires script { script.now ≡ N.script }
    requires counts { AreCounted script.now (length (threads_of script.now)) counts.now }
    requires quotas { HaveQuotas N.script N.tree N.slices }
    requires given { AreGivenTo N.script N.tree N.slices (length (threads_of N.script)) 0 tree.old slices.old.items }
    requires workers { IsShareOf T.table (first_threads 0 (length (threads_of N.script))) workers.old }
    ensures given { IfOk result (λ p. AreGivenTo N.script N.tree N.slices (length (threads_of N.script)) (length (threads_of N.script)) tree.new slices.new.items) }
    ensures first { IfOk result (λ p. AreFirst (length (threads_of N.script)) p.items) }
    ensures lawful { IsLawful N.script }
{
    let mut all = Vec::new(alloc);
    for t in 0..script.threads() {
        let own = take_each(alloc, slices)?;
        let passes = FreshPasses {
            tree: tree.take(),
            slices: own,
        };
        all.push(first(
            alloc,
            script,
            t,
            counts[t as usize],
            passes,
            workers.split()?,
        )?)?;
    }
    Ok(all)
}

/// All threads before their first ops, each with its part of `workers`, and the passes of the tree's cell, which are the next of the
/// slices' journals. NoMemory where there is no room for them.
pub(crate) fn first_passes<N: RunNames, T: NamedTable>(
    alloc: Global,
    script: &Script,
    tree: &mut Log<TreeEntry>,
    slices: &mut Vec<Log<SliceEntry>>,
    workers: &mut StepShare<N>,
) -> Result<(Vec<Passes<N, T>>, Vec<Pass<SliceEntry>>), NoMemory>
    requires script { script.now ≡ N.script }
    requires quotas { HaveQuotas N.script N.tree N.slices }
    requires given { AreGivenTo N.script N.tree N.slices (length (threads_of N.script)) 0 tree.old slices.old.items }
    requires workers { IsShareOf T.table (first_threads 0 (length (threads_of N.script))) workers.old }
    ensures name { IfOk result (λ r. tree.new.name ≡ N.tree) }
    ensures left { IfOk result (λ r. length slices.new.items ≤ tree.new.left) }
    ensures logs { IfOk result (λ r. AreOfSlices N.slices (slice_count N.script.machine) slices.new.items) }
    ensures first { IfOk result (λ r. AreFirst (length (threads_of N.script)) r.0.items) }
    ensures own { IfOk result (λ r. AreNew N.slices (slice_count N.script.machine) (length (threads_of N.script)) r.1.items) }
    ensures lawful { IfOk result (λ r. IsLawful N.script) }
{
    let counts = command_counts(alloc, script)?;
    let passes = all_first(alloc, script, &counts, tree, slices, workers)?;
    let own = take_each(alloc, slices)?;
    Ok((passes, own))
}
