//! A run that is made by hand: one thread is alone in the first phase, and two take turns in the second.
ghost use Rattle.std.specs.Prelude.{◌≡◌, ◌+◌, ◌*◌, ◌≤◌, [], IfOk, length, vec_capacity};
ghost use Rattle.live_run.specs.Openings.{IsFirst};
ghost use Rattle.live_run.specs.Quotas.{HaveQuotas};
ghost use Rattle.live_run.specs.Sharing.{IsAtPhase, IsShareOf};
ghost use Rattle.live_tests.specs.Turns.{AreAtFirst, HasMade, HaveMade, IsInTurns};
ghost use Rattle.schedule_law.specs.LiveParts.{first as first_parts};
ghost use Rattle.script_ops.specs.Values.{ops_of};

use super::playing::Played;
use super::scripts::{SWEEP, SWEEPS};
use super::turns::Answer;
use live_run::run_names::{NamedTable, StepShare};
use live_run::{Live, Logs, Passes, RunNames};
use script_ops::Script;
use std::alloc::Global;
use std::mem::forget;
use std::test::Fail;

/// The share of who starts the phases, the passes of the three threads, and what came of them so far.
#[derive(Drop)]
pub struct Hands<N: RunNames, T: NamedTable> {
    pub turn: StepShare<N>,
    pub first: Passes<N, T>,
    pub second: Passes<N, T>,
    pub third: Passes<N, T>,
    shown: Vec<Vec<u8>>,
    pub answers: Vec<Answer>,
}

// Adds what a thread is shown.
fn note<N: RunNames, T: NamedTable>(
    alloc: Global,
    p: &Passes<N, T>,
    shown: &mut Vec<Vec<u8>>,
) -> Result<(), Fail> {
    let text = Vec::from_slice(alloc, p.text())?;
    shown.push(text)?;
    Ok(())
}

impl<N: RunNames, T: NamedTable> Hands<N, T> {
    /// The shared tree and slices, and these before the first op.
    pub fn open(
        alloc: Global,
        script: &Script,
        logs: Logs,
        share: StepShare<N>,
    ) -> Result<(Live<N, T>, Hands<N, T>), Fail>
        requires script { script.now ≡ N.script }
        requires tree { logs.tree ≡ N.tree }
        requires slices { logs.slices ≡ N.slices }
        requires quotas { HaveQuotas N.script N.tree N.slices }
        requires share { IsShareOf T.table (first_parts N.script) share }
        requires turns { IsInTurns N.script SWEEPS SWEEP }
        ensures { IfOk result (λ r. AreAtFirst N.script T.table r.1.turn r.1.first r.1.second r.1.third) }
    {
        let (live, mut passes, turn) = Live::<N, T>::create(alloc, script, logs, share)?;
        let third = passes.take_last();
        let second = passes.take_last();
        let first = passes.take_last();
        let hands = Hands {
            turn,
            first,
            second,
            third,
            shown: Vec::new(alloc),
            answers: Vec::new(alloc),
        };
        Ok((live, hands))
    }

    /// Notes what each of the threads is shown.
    pub fn look(&mut self, alloc: Global) -> Result<(), Fail>
        ensures turn { self.new.turn ≡ self.old.turn }
        ensures first { self.new.first ≡ self.old.first }
        ensures second { self.new.second ≡ self.old.second }
        ensures third { self.new.third ≡ self.old.third }
    {
        note(alloc, &self.first, &mut self.shown)?;
        note(alloc, &self.second, &mut self.shown)?;
        note(alloc, &self.third, &mut self.shown)
    }

    /// The first thread hands on to the others, and their phase begins.
    pub fn hand_on(&mut self, live: &Live<N, T>)
        requires turns { IsInTurns N.script SWEEPS SWEEP }
        requires turn { IsAtPhase N.script T.table 0 self.old.turn }
        requires first { HasMade 0 (length (ops_of N.script 0)) self.old.first }
        requires second { IsFirst 1 self.old.second }
        requires third { IsFirst 2 self.old.third }
        ensures { HaveMade N.script T.table 0 0 self.new.turn self.new.first self.new.second self.new.third }
    {
        live.hand_on(&mut self.first, &mut self.second);
        live.hand_on(&mut self.first, &mut self.third);
        self.begin_others();
    }

    /// What came of the run, when each thread has made all its ops. The passes go into `passes`, which has room for them.
    pub fn close(mut self, passes: Vec<Passes<N, T>>, live: Live<N, T>) -> Played
        requires empty { passes.items ≡ [] }
        requires room { 3 ≤ vec_capacity passes }
        requires turns { IsInTurns N.script SWEEPS SWEEP }
        requires made { HaveMade N.script T.table (SWEEPS + 2) (SWEEPS * SWEEP) self.turn self.first self.second self.third }
    {
        self.end_others();
        let mut passes = passes;
        let Hands {
            turn,
            first,
            second,
            third,
            shown,
            answers,
        } = self;
        passes.push_reserved(first);
        passes.push_reserved(second);
        passes.push_reserved(third);
        let journals = live.close(passes, turn);
        Played {
            shown,
            answers,
            journals,
        }
    }

    /// A run that could not be made to its end: the test has failed, and its memory is left.
    pub fn give_up(self, live: Live<N, T>, why: Fail) -> Fail {
        forget(self);
        forget(live);
        why
    }
}
