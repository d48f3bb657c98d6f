//! Where one phase ends and the next begins.
ghost use Rattle.std.specs.Prelude.{◌≡◌, ◌+◌, ◌*◌, length};
ghost use Rattle.live_run.specs.Sharing.{IsAtPhase};
ghost use Rattle.live_tests.specs.Turns.{HasMade, HaveMade, IsInTurns, IsReady};
ghost use Rattle.script_ops.specs.Values.{ops_of};

use super::hands::Hands;
use super::scripts::{SWEEP, SWEEPS};
use live_run::RunNames;
use live_run::phases::{begin, end};
use live_run::run_names::{NamedTable, TREE_LOCK};
use schedule_law::phases::pass;

impl<N: RunNames, T: NamedTable> Hands<N, T> {
    /// The first phase is over, and that of the others has begun.
    pub fn begin_others(&mut self)
        requires turns { IsInTurns N.script SWEEPS SWEEP }
        requires turn { IsAtPhase N.script T.table 0 self.old.turn }
        requires first { HasMade 0 (length (ops_of N.script 0)) self.old.first }
        requires second { IsReady N.script 1 self.old.second }
        requires third { IsReady N.script 2 self.old.third }
        ensures turn { IsAtPhase N.script T.table 1 self.new.turn }
        ensures first { HasMade 0 (length (ops_of N.script 0)) self.new.first }
        ensures second { HasMade 1 0 self.new.second }
        ensures third { HasMade 2 0 self.new.third }
    {
        end(&mut self.turn, &mut self.first);
        pass(&mut self.turn, TREE_LOCK);
        begin(&mut self.turn, &mut self.second);
        begin(&mut self.turn, &mut self.third);
    }

    /// The second phase is over.
    pub fn end_others(&mut self)
        requires turns { IsInTurns N.script SWEEPS SWEEP }
        requires made { HaveMade N.script T.table (SWEEPS + 2) (SWEEPS * SWEEP) self.old.turn self.old.first self.old.second self.old.third }
        ensures turn { IsAtPhase N.script T.table 2 self.new.turn }
        ensures first { self.new.first ≡ self.old.first }
        ensures second { self.new.second ≡ self.old.second }
        ensures third { self.new.third ≡ self.old.third }
    {
        end(&mut self.turn, &mut self.second);
        end(&mut self.turn, &mut self.third);
        pass(&mut self.turn, TREE_LOCK);
    }
}
