//! A whole run by hand.
ghost use Rattle.std.specs.Prelude.{◌≡◌, ◌+◌, ◌*◌, IsTrue, OnOk};
ghost use Rattle.live_run.specs.Quotas.{HaveQuotas};
ghost use Rattle.live_run.specs.Sharing.{IsShareOf};
ghost use Rattle.live_tests.specs.Turns.{AreAtFirst, HaveMade, IsInTurns};
ghost use Rattle.schedule_law.specs.LiveParts.{first as first_parts};

use super::hands::Hands;
use super::scripts::{SWEEP, SWEEPS};
use super::turns::Answer;
use live_run::run_names::{LOCKS, NamedTable, ScriptOf, StepShare};
use live_run::{Live, Logs, RunNames};
use run_law::Journals;
use schedule_law::sharing::open;
use script_ops::Script;
use std::alloc::Global;
use std::marker::Brand;
use std::sync::Wait;
use std::test::Fail;

/// What came of a run.
#[derive(Drop)]
pub struct Played {
    /// What each of the three threads was shown before the first op, when the first thread had handed on, and at the end.
    pub shown: Vec<Vec<u8>>,
    /// What the threads were answered, in the order in which they made their ops.
    pub answers: Vec<Answer>,
    pub journals: Journals,
}

// Whether the threads of a script can take turns.
fn is_in_turns(script: &Script) -> bool
    ensures { IsTrue result → IsInTurns script.now SWEEPS SWEEP }
{
    if script.phases() != 2 || script.threads() != 3 {
        return false;
    }
    if script.thread_count(0) != 1 || script.thread_count(1) != 2 {
        return false;
    }
    script.ops(1).len() == SWEEPS as usize + 2
        && script.ops(2).len() == SWEEPS as usize * SWEEP as usize
}

// All ops are made. What the threads are shown is noted before the first, when the first thread has handed on, and at the end.
fn make_all<N: RunNames, T: NamedTable, R: Wait>(
    rt: &R,
    alloc: Global,
    live: &Live<N, T>,
    script: &Script,
    hands: &mut Hands<N, T>,
) -> Result<(), Fail>
    requires script { script.now ≡ N.script }
    requires turns { IsInTurns N.script SWEEPS SWEEP }
    requires at_first { AreAtFirst N.script T.table hands.old.turn hands.old.first hands.old.second hands.old.third }
    ensures { OnOk result (HaveMade N.script T.table (SWEEPS + 2) (SWEEPS * SWEEP) hands.new.turn hands.new.first hands.new.second hands.new.third) }
{
    hands.look(alloc)?;
    hands.make_first(rt, live, script)?;
    hands.hand_on(live);
    hands.look(alloc)?;
    hands.take_turns(rt, live, script)?;
    hands.look(alloc)
}

// The run of a script whose journals have these names.
fn play_named<N: RunNames, T: NamedTable, R: Wait>(
    rt: &R,
    alloc: Global,
    script: &Script,
    logs: Logs,
    share: StepShare<N>,
) -> Result<Played, Fail>
    requires script { script.now ≡ N.script }
    requires share { IsShareOf T.table (first_parts N.script) share }
    requires tree { logs.tree ≡ N.tree }
    requires slices { logs.slices ≡ N.slices }
    requires quotas { HaveQuotas N.script N.tree N.slices }
    requires turns { IsInTurns N.script SWEEPS SWEEP }
{
    let passes = Vec::with_capacity(alloc, 3)?;
    let (live, mut hands) = Hands::<N, T>::open(alloc, script, logs, share)?;
    match make_all(rt, alloc, &live, script, &mut hands) {
        Ok(()) => Ok(hands.close(passes, live)),
        Err(why) => Err(hands.give_up(live, why)),
    }
}

// Opens the table of parts of a script whose journals have these names, and makes the run.
fn play_shared<N: RunNames, R: Wait>(
    rt: &R,
    alloc: Global,
    script: &Script,
    logs: Logs,
) -> Result<Played, Fail>
    requires script { script.now ≡ N.script }
    requires tree { logs.tree ≡ N.tree }
    requires slices { logs.slices ≡ N.slices }
    requires quotas { HaveQuotas N.script N.tree N.slices }
    requires turns { IsInTurns N.script SWEEPS SWEEP }
{
    let share = open::<ScriptOf<N>>(alloc, LOCKS)?;
    play_named::<N, Brand, R>(rt, alloc, script, logs, share)
}

/// Makes all ops of a script by hand. A script whose threads do not take turns is refused. The names of the journals are picked here,
/// and that of the table of parts when it is open.
pub fn play_by_hand<R: Wait>(rt: &R, alloc: Global, script: &Script) -> Result<Played, Fail> {
    if !is_in_turns(script) {
        return Err(Fail::new("other turns"));
    }
    let logs = Logs::create(alloc, script)?;
    play_shared::<Brand, R>(rt, alloc, script, logs)
}
