//! What was read of a pair script so far.
ghost use Rattle.std.specs.Prelude.{◌≡◌, OnOk};
ghost use Rattle.pair_text.specs.PairLines.{with_command};
ghost use Rattle.pair_text.specs.PairReading.{nothing_read};
ghost use Rattle.pair_text.specs.Readers.{IsSound, Means, state_of};

use crate::PairOp;
use crate::kind::Place;
use crate::limits::MOST_COMMANDS;
use crate::stop::{Stop, bad};
use machine::Machine;
use script_lines::LineFault;
use script_lines::tasks::TaskRange;
use std::alloc::Global;

/// What was read so far.
#[derive(Drop)]
pub struct PairReader {
    pub(crate) alloc: Global,
    pub(crate) place: Place,
    pub(crate) machine: Machine,
    pub(crate) l2: Option<Machine>,
    pub(crate) tasks: Vec<TaskRange>,
    pub(crate) ops: Vec<PairOp>,
    pub(crate) commands: u64,
    pub(crate) uses: u64,
}

impl PairReader {
    /// Nothing was read.
    pub fn create(alloc: Global) -> PairReader
        ensures opening { state_of result ≡ nothing_read }
        ensures sound { IsSound (state_of result) }
    {
        PairReader {
            alloc,
            place: Place::Start,
            machine: Machine::default(),
            l2: None,
            tasks: Vec::new(alloc),
            ops: Vec::new(alloc),
            commands: 0,
            uses: 0,
        }
    }

    /// Adds a command.
    pub fn push_command(&mut self, op: PairOp) -> Result<(), Stop>
        requires { IsSound (state_of self.old) }
        ensures said { Means result (state_of self.new) (with_command (state_of self.old) op) }
        ensures sound { OnOk result (IsSound (state_of self.new)) }
    {
        if self.commands + 1 > MOST_COMMANDS {
            return Err(bad(LineFault::TooLarge));
        }
        self.ops.push(op)?;
        self.commands += 1;
        self.place = Place::Body;
        Ok(())
    }
}
