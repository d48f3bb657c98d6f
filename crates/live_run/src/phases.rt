//! The phases of a script, and what their threads hand on.
ghost use Rattle.std.specs.Prelude.{◌≡◌, ℕ, ◌+◌, ◌<◌, length, true};
ghost use Rattle.live_law.specs.SeenJournals.{HasGrown};
ghost use Rattle.live_run.specs.Names.{seen_by};
ghost use Rattle.live_run.specs.Phases.{AreBefore, AreBegun, AreEndedIn, AreOfPhase, HasWorked, HaveEnded, HaveWorked, IsEndedIn, IsOfPhase, MayAllWork, MayWork, passes_at, HasMetEach, HaveHandedOn};
ghost use Rattle.live_run.specs.Sharing.{IsAtPhase};

use crate::live::Live;
use crate::passes::Passes;
use crate::run_names::{NamedTable, RunNames, StepShare, TREE_LOCK};
use rc_stream::Gate;
use schedule_law::phases;
use script_ops::Script;
use std::sync::Wait;
use std::thread;
use std::thread::Threads;

impl<N: RunNames + Send + Sync, T: NamedTable + Send + Sync> Live<N, T> {
    /// Makes all ops of the threads of a phase, each by a worker of its own, and by the caller where a worker could not be started.
    /// Then the threads of later phases have seen that these have ended.
    pub fn phase<R: Threads + Wait + Sync, G: Gate>(
        &self,
        rt: &R,
        script: &Script,
        phase: u32,
        turn: &mut StepShare<N>,
        p: &mut [Passes<N, T>],
        gate: &G,
    )
        requires script { script.now ≡ N.script }
        requires phase { phase < length N.script.phases }
        requires before { AreBefore N.script phase p.old }
        requires turn { IsAtPhase N.script T.table phase turn.old }
        ensures before { AreBefore N.script (phase + 1) p.new }
        ensures turn { IsAtPhase N.script T.table (phase + 1) turn.new }
        ensures seen { (t : ℕ) → t < length p.old → HasGrown (seen_by (passes_at p.old t).seen) (seen_by (passes_at p.new t).seen) }
    {
        let first = script.first_thread(phase) as usize;
        let count = script.thread_count(phase) as usize;
        if count == 0 {
            phases::pass(turn, TREE_LOCK);
            return;
        }
        let (_, from) = p.split_at_mut(first);
        let (own, later) = from.split_at_mut(count);
        begin_all(turn, own);
        self.work_all(rt, script, own, gate);
        end_all(turn, own);
        phases::pass(turn, TREE_LOCK);
        self.hand_all(own, later);
    }

    // Each thread makes all its ops.
    fn work_all<R: Threads + Wait + Sync, G: Gate>(
        &self,
        rt: &R,
        script: &Script,
        own: &mut [Passes<N, T>],
        gate: &G,
    )
        requires script { script.now ≡ N.script }
        requires some { 0 < length own.old }
        requires may { MayAllWork N.script own.old }
        ensures { HaveWorked N.script own.old own.new }
    {
        let worker = |_: usize, p: &mut Passes<N, T>|
            requires { (script.now ≡ N.script) × MayWork N.script p.now }
            ensures { HasWorked N.script p.entry.now p.exit.now }
        { self.work(rt, script, p, gate) };
        thread::for_each_mut(rt, own, own.len(), &worker);
    }
}

/// The phase of a thread has begun, and the thread has seen that the threads of earlier phases have ended: it may make its ops.
pub fn begin<N: RunNames, T: NamedTable>(turn: &mut StepShare<N>, p: &mut Passes<N, T>)
    requires may { IsOfPhase N.script T.table p.old turn.old }
    ensures turn { turn.new ≡ turn.old }
    ensures begun { p.new ≡ (record p.old { begun = true }) }
{
    phases::begin(turn, &mut p.side.share, TREE_LOCK);
}

// That of each thread has.
fn begin_all<N: RunNames, T: NamedTable>(turn: &mut StepShare<N>, own: &mut [Passes<N, T>])
    requires threads { AreOfPhase N.script T.table own.old turn.old }
    ensures turn { turn.new ≡ turn.old }
    ensures begun { AreBegun (length own.old) own.old own.new }
{
    for k in 0..own.len() {
        begin(turn, &mut own[k]);
    }
}

/// A thread is at its end, and so are all before it.
pub fn end<N: RunNames, T: NamedTable>(turn: &mut StepShare<N>, p: &mut Passes<N, T>)
    requires may { IsEndedIn N.script T.table p.old turn.old }
    ensures turn { HaveEnded 1 turn.old turn.new }
    ensures same { p.new ≡ p.old }
{
    phases::end(turn, &mut p.side.share, TREE_LOCK);
}

// Each thread is at its end.
fn end_all<N: RunNames, T: NamedTable>(turn: &mut StepShare<N>, own: &mut [Passes<N, T>])
    requires threads { AreEndedIn N.script T.table own.old turn.old }
    ensures turn { HaveEnded (length own.old) turn.old turn.new }
    ensures same { own.new ≡ own.old }
{
    for k in 0..own.len() {
        end(turn, &mut own[k]);
    }
}

impl<N: RunNames, T: NamedTable> Live<N, T> {
    // Each of the later threads has seen what any of these has.
    fn hand_all(&self, own: &mut [Passes<N, T>], later: &mut [Passes<N, T>])
        requires some { 0 < length own.old }
        ensures { HaveHandedOn N.script own.old own.new later.old later.new }
    {
        let (one, others) = own.split_at_mut(1);
        self.hand_each(&mut one[0], others);
        self.hand_each(&mut one[0], later);
    }

    // One meets each of the others, in order.
    fn hand_each(&self, one: &mut Passes<N, T>, others: &mut [Passes<N, T>])
        ensures { HasMetEach N.script (length others.old) one.old one.new others.old others.new }
    {
        for k in 0..others.len() {
            self.hand_on(one, &mut others[k]);
        }
    }
}
