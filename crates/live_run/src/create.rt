//! A run before its first op.
ghost use Rattle.std.specs.Prelude.{◌≡◌, ℕ, ◌<◌, [], IfOk, length};
ghost use Rattle.live_run.specs.Phases.{AreBefore, passes_at};
ghost use Rattle.live_run.specs.Quotas.{HaveQuotas};
ghost use Rattle.live_run.specs.Sharing.{IsAtPhase, IsShareOf};
ghost use Rattle.schedule_law.specs.LiveParts.{first};

use crate::closing_room::Closing;
use crate::first_passes::{first_passes, split_each};
use crate::live::Live;
use crate::logs::Logs;
use crate::parts::fresh_parts;
use crate::passes::Passes;
use crate::run_names::{NamedTable, RunNames, StepShare};
use crate::slices::Slices;
use crate::tree::TreeCell;
use rc_base::NoMemory;
use script_ops::Script;
use std::alloc::Global;
use std::sync::Mutex;

impl<N: RunNames, T: NamedTable> Live<N, T> {
    /// The shared tree and slices before the first op of a script, and the passes of each thread. All that the run needs is taken
    /// here: nothing after this takes memory. NoMemory where there is no room for it.
    pub fn create(
        alloc: Global,
        script: &Script,
        logs: Logs,
        share: StepShare<N>,
    ) -> Result<(Live<N, T>, Vec<Passes<N, T>>, StepShare<N>), NoMemory>
        requires script { script.now ≡ N.script }
        requires tree { logs.tree ≡ N.tree }
        requires slices { logs.slices ≡ N.slices }
        requires quotas { HaveQuotas N.script N.tree N.slices }
        requires share { IsShareOf T.table (first N.script) share }
        ensures before { IfOk result (λ r. AreBefore N.script 0 r.1.items) }
        ensures turn { IfOk result (λ r. IsAtPhase N.script T.table 0 r.2) }

        // No text is shown before a first read or list.
        ensures shown { IfOk result (λ r. (t : ℕ) → t < length r.1.items → (passes_at r.1.items t).shown ≡ []) }
    {
        let Logs {
            mut tree,
            mut slices,
        } = logs;
        let m = script.machine();
        let mut shares = share;
        let history = shares.split()?;
        let turn = shares.split()?;
        let lists = split_each(alloc, &mut shares, usize::from(m.slice_count()))?;
        let (passes, own) = first_passes(alloc, script, &mut tree, &mut slices, &mut shares)?;
        let mut parts = fresh_parts::<N, T>(alloc, m, &mut tree, slices, lists)?;
        let cell = TreeCell::open(alloc, script, tree.into_journal(), own, history)?;
        let closing = Closing::create(alloc, script)?;
        let live = Live {
            machine: *m,
            tree: Mutex::new(cell),
            slices: Slices::open(&mut parts),
            closing: Mutex::new(closing),
        };
        Ok((live, passes, turn))
    }
}
