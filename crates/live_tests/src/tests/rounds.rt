//! The ops of the threads.
ghost use Rattle.std.specs.Prelude.{◌≡◌, ◌+◌, ◌*◌, ◌<◌, OnOk, length};
ghost use Rattle.live_run.specs.Openings.{IsFirst};
ghost use Rattle.live_run.specs.Sharing.{IsAtPhase};
ghost use Rattle.live_tests.specs.Turns.{HasMade, HaveMade, IsInTurns};
ghost use Rattle.script_ops.specs.Values.{ops_of};

use super::hands::Hands;
use super::scripts::{SWEEP, SWEEPS};
use super::turns::{Turn, take_turn};
use live_run::phases::begin;
use live_run::run_names::NamedTable;
use live_run::{Live, RunNames};
use script_ops::Script;
use std::sync::Wait;
use std::test::Fail;

impl<N: RunNames, T: NamedTable> Hands<N, T> {
    /// The first thread makes all its ops.
    pub fn make_first<R: Wait>(
        &mut self,
        rt: &R,
        live: &Live<N, T>,
        script: &Script,
    ) -> Result<(), Fail>
        requires script { script.now ≡ N.script }
        requires turns { IsInTurns N.script SWEEPS SWEEP }
        requires turn { IsAtPhase N.script T.table 0 self.old.turn }
        requires first { IsFirst 0 self.old.first }
        ensures turn { self.new.turn ≡ self.old.turn }
        ensures first { OnOk result (HasMade 0 (length (ops_of N.script 0)) self.new.first) }
        ensures second { self.new.second ≡ self.old.second }
        ensures third { self.new.third ≡ self.old.third }
    {
        begin(&mut self.turn, &mut self.first);
        let count = script.ops(0).len();
        let all = Turn {
            thread: 0,
            from: 0,
            to: count as u32,
        };
        take_turn(rt, live, script, all, &mut self.first, &mut self.answers)
    }

    // The second thread makes an access, and the third a sweep.
    fn take_round<R: Wait>(
        &mut self,
        rt: &R,
        live: &Live<N, T>,
        script: &Script,
        i: u32,
    ) -> Result<(), Fail>
        requires script { script.now ≡ N.script }
        requires within { i < SWEEPS }
        requires made { HaveMade N.script T.table i (i * SWEEP) self.old.turn self.old.first self.old.second self.old.third }
        ensures { OnOk result (HaveMade N.script T.table (i + 1) ((i + 1) * SWEEP) self.new.turn self.new.first self.new.second self.new.third) }
    {
        let own = Turn {
            thread: 1,
            from: i,
            to: i + 1,
        };
        take_turn(rt, live, script, own, &mut self.second, &mut self.answers)?;
        let sweep = Turn {
            thread: 2,
            from: i * SWEEP,
            to: (i + 1) * SWEEP,
        };
        take_turn(rt, live, script, sweep, &mut self.third, &mut self.answers)
    }

    // The second thread makes its last ops.
    fn finish<R: Wait>(&mut self, rt: &R, live: &Live<N, T>, script: &Script) -> Result<(), Fail>
        requires script { script.now ≡ N.script }
        requires made { HaveMade N.script T.table SWEEPS (SWEEPS * SWEEP) self.old.turn self.old.first self.old.second self.old.third }
        ensures { OnOk result (HaveMade N.script T.table (SWEEPS + 2) (SWEEPS * SWEEP) self.new.turn self.new.first self.new.second self.new.third) }
    {
        let last = Turn {
            thread: 1,
            from: SWEEPS,
            to: SWEEPS + 2,
        };
        take_turn(rt, live, script, last, &mut self.second, &mut self.answers)
    }

    /// The second thread makes its accesses one by one, and the third a sweep between each two of them.
    pub fn take_turns<R: Wait>(
        &mut self,
        rt: &R,
        live: &Live<N, T>,
        script: &Script,
    ) -> Result<(), Fail>
        requires script { script.now ≡ N.script }
        requires made { HaveMade N.script T.table 0 0 self.old.turn self.old.first self.old.second self.old.third }
        ensures { OnOk result (HaveMade N.script T.table (SWEEPS + 2) (SWEEPS * SWEEP) self.new.turn self.new.first self.new.second self.new.third) }
    {
        for i in 0..SWEEPS {
            self.take_round(rt, live, script, i)?;
        }
        self.finish(rt, live, script)
    }
}
