//! A whole run of a script.
ghost use Rattle.std.specs.Prelude.{◌≡◌, ℕ, IfOk, List};
ghost use Rattle.live_run.specs.Quotas.{HaveQuotas};
ghost use Rattle.live_run.specs.Sharing.{IsShareOf};
ghost use Rattle.run_law.specs.Runs.{IsRun};
ghost use Rattle.schedule_law.specs.LiveParts.{first};
ghost use Rattle.schedule_law.specs.Schedules.{IsScheduled};
ghost use Rattle.step_world.specs.Play.{IsPlayBy};

use crate::live::Live;
use crate::logs::Logs;
use crate::run_names::{LOCKS, NamedTable, RunNames, ScriptOf, StepShare};
use rc_base::NoMemory;
use rc_stream::Gate;
use run_law::Journals;
use schedule_law::sharing::open;
use script_ops::Script;
use std::alloc::Global;
use std::marker::Brand;
use std::sync::Wait;
use std::thread::Threads;

// Plays a script whose journals have these names.
fn play_named<
    N: RunNames + Send + Sync,
    T: NamedTable + Send + Sync,
    R: Threads + Wait + Sync,
    G: Gate,
>(
    rt: &R,
    alloc: Global,
    script: &Script,
    logs: Logs,
    share: StepShare<N>,
    gate: &G,
) -> Result<Journals, NoMemory>
    requires script { script.now ≡ N.script }
    requires share { IsShareOf T.table (first N.script) share }
    requires tree { logs.tree ≡ N.tree }
    requires slices { logs.slices ≡ N.slices }
    requires quotas { HaveQuotas N.script N.tree N.slices }
    ensures run { IfOk result (λ journals. IsRun script.now journals) }
    ensures scheduled { IfOk result (λ journals. IsScheduled script.now journals) }
{
    let (live, mut passes, mut turn) = Live::<N, T>::create(alloc, script, logs, share)?;
    for phase in 0..script.phases() {
        live.phase(rt, script, phase, &mut turn, &mut passes, gate);
    }
    Ok(live.close(passes, turn))
}

// Opens the table of parts of a script whose journals have these names, and plays it.
fn play_shared<N: RunNames + Send + Sync, R: Threads + Wait + Sync, G: Gate>(
    rt: &R,
    alloc: Global,
    script: &Script,
    logs: Logs,
    gate: &G,
) -> Result<Journals, NoMemory>
    requires script { script.now ≡ N.script }
    requires tree { logs.tree ≡ N.tree }
    requires slices { logs.slices ≡ N.slices }
    requires quotas { HaveQuotas N.script N.tree N.slices }
    ensures run { IfOk result (λ journals. IsRun script.now journals) }
    ensures scheduled { IfOk result (λ journals. IsScheduled script.now journals) }
{
    let share = open::<ScriptOf<N>>(alloc, LOCKS)?;
    play_named::<N, Brand, R, G>(rt, alloc, script, logs, share, gate)
}

/// Plays a script: each phase by one worker for each of its threads, who call the gate with each op. The journals are a run of the
/// script, whatever order the workers take the locks in, and there are order lists by which the play of the script has just these
/// journals. NoMemory where the room for the run is not there; nothing is taken once the first worker has begun. It waits for locks and
/// workers, and what is promised holds if it returns. (This project's profile.)
pub fn play<R: Threads + Wait + Sync, G: Gate>(
    rt: &R,
    alloc: Global,
    script: &Script,
    gate: &G,
) -> Result<Journals, NoMemory>
    ensures run { IfOk result (λ journals. IsRun script.now journals) }
    ensures played { IfOk result (λ journals. (orders : List (List ℕ)) × IsPlayBy script.now orders journals) }
{
    // What is scheduled can be played again, since a script has at least one slice.
    let _threads = script.threads();
    let logs = Logs::create(alloc, script)?;
    play_shared::<Brand, R, G>(rt, alloc, script, logs, gate)
}
