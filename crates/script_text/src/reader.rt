//! What was read of a script so far.
ghost use Rattle.std.specs.Prelude.{◌≡◌, ◌+◌, ◌*◌, ◌-◌, ◌<◌, ◌^◌, length, Ok, OnOk, IfOk};
ghost use Rattle.script_text.specs.States.{state_of, close_thread, close_phase, InLimits, IsSound, IsFit, IsReady};
ghost use Rattle.script_text.specs.Reading.{Reads, finished, nothing_read, script_in};
ghost use Rattle.path_names.specs.NamesIn.{AreKnown};
ghost use Rattle.script_ops.specs.Canonical.{op_ids};
ghost use Rattle.script_ops.specs.declared.op.Op.TheVariants.{Access};
ghost use Rattle.machine.specs.Maps.{parameters_of};
ghost use Rattle.script_text.specs.Meaning.{with_op, with_ops, sweep_ops, Means};
ghost use Rattle.path_names.specs.declared.paths.TheConstants.{MOST_PATH_NAMES};

use crate::accesses::push_accesses;
use crate::kind::LinePosition;
use machine::Machine;
use path_names::Names;
use rc_base::NoMemory;
use script_lines::arguments::Sweep;
use script_lines::tasks::{TaskRange, push_ids};
use script_lines::{LineError, LineFault, ScriptError, ScriptFault};
use script_ops::{MOST_WEIGHT, Op, Ops, Phase, Script, weight_of};
use std::alloc::Global;
use std::mem;

// What an access weighs on any machine.
const ACCESS_WEIGHT: u64 = 1;

/// What was read so far: the closed phases, the order and the closed threads of the open phase, and the ops of the open thread.
#[derive(Drop)]
pub struct Reader {
    pub(crate) alloc: Global,
    pub(crate) place: LinePosition,
    pub(crate) machine: Machine,
    pub(crate) tasks: Vec<TaskRange>,
    pub(crate) names: Names,
    pub(crate) phases: Vec<Phase>,
    pub(crate) order: Vec<u32>,
    pub(crate) threads: Vec<Ops>,
    pub(crate) ops: Ops,
    pub(crate) weight: u64,
}

impl Reader {
    /// Nothing was read.
    #[tactic(auto, using(crate::proofs::Readiness::beginning))]
    pub fn create(alloc: Global) -> Result<Reader, NoMemory>
        ensures opening { IfOk result (λ r. state_of r ≡ nothing_read) }
        ensures sound { IfOk result (λ r. IsSound (state_of r)) }
        ensures ready { IfOk result (λ r. IsReady (state_of r)) }
    {
        let names = Names::create(alloc)?;
        Ok(Reader {
            alloc,
            place: LinePosition::Start,
            machine: Machine::default(),
            tasks: Vec::new(alloc),
            names,
            phases: Vec::new(alloc),
            order: Vec::new(alloc),
            threads: Vec::new(alloc),
            ops: Ops::create(alloc),
            weight: 0,
        })
    }

    /// The script, after its last line.
    pub fn finish(self, lines: u32) -> Result<Script, ScriptError>
        requires lines { lines + 1 < 2 ^ 32 }
        requires sound { IsSound (state_of self) }
        requires ready { IsReady (state_of self) }
        ensures { Reads result (finished lines (state_of self)) }
    {
        let mut reader = self;
        if reader.place == LinePosition::Start {
            return Err(ScriptError::Bad(ScriptFault {
                line: lines + 1,
                what: LineFault::NoMachine,
            }));
        }
        match reader.close_phase() {
            Ok(()) => reader.into_script(),
            Err(_) => Err(ScriptError::NoMemory),
        }
    }

    fn into_script(self) -> Result<Script, ScriptError>
        requires limits { InLimits 0 1 0 (state_of self) }
        requires fit { IsFit (state_of self) }
        ensures { Reads result (Ok (script_in (state_of self))) }
    {
        let Reader {
            alloc,
            place: _,
            machine,
            tasks: ranges,
            mut names,
            phases,
            order: _,
            threads: _,
            ops: _,
            weight: _,
        } = self;
        names.settle();
        let mut tasks = Vec::new(alloc);
        match push_ids(&mut tasks, &ranges) {
            Ok(()) => Ok(Script::new(machine, tasks, names, phases)),
            Err(NoMemory) => Err(ScriptError::NoMemory),
        }
    }

    /// Adds an op to the open thread.
    #[tactic(auto, using(crate::proofs::Limits::keeping))]
    pub fn push(&mut self, op: Op) -> Result<(), LineError>
        requires limits { InLimits 1 1 MOST_PATH_NAMES (state_of self.old) }
        requires known { AreKnown (length self.old.names) (op_ids op) }
        ensures said { Means result (state_of self.new) (with_op (state_of self.old) op) }
        ensures sound { OnOk result (IsSound (state_of self.new)) }
    {
        let total = match self.weight.checked_add(weight_of(&self.machine, &op)) {
            Some(total) if total <= MOST_WEIGHT => total,
            _ => return Err(LineError::Fault(LineFault::TooLarge)),
        };
        self.ops.push(op)?;
        self.weight = total;
        Ok(())
    }

    /// Adds an access to the open thread.
    #[inline(always)]
    #[tactic(auto, using(crate::proofs::Limits::keeping))]
    pub fn push_use(&mut self, task: u32, cpu: u8, addr: u64) -> Result<(), LineError>
        requires limits { InLimits 1 1 MOST_PATH_NAMES (state_of self.old) }
        ensures said { Means result (state_of self.new) (with_op (state_of self.old) (Access task cpu addr)) }
        ensures sound { OnOk result (IsSound (state_of self.new)) }
    {
        let total = match self.weight.checked_add(ACCESS_WEIGHT) {
            Some(total) if total <= MOST_WEIGHT => total,
            _ => return Err(LineError::Fault(LineFault::TooLarge)),
        };
        self.ops.push_access(task, cpu, addr)?;
        self.weight = total;
        Ok(())
    }

    /// Adds the accesses of a sweep to the open thread. The room for all is taken at once.
    #[tactic(auto, using(crate::proofs::Limits::keeping))]
    pub fn push_sweep(&mut self, task: u32, sweep: &Sweep) -> Result<(), LineError>
        requires sound { IsSound (state_of self.old) }
        requires some { 0 < sweep.now.count }
        requires last { sweep.now.first.at + (sweep.now.count - 1) * sweep.now.stride < 2 ^ 48 }
        ensures said { Means result (state_of self.new) (with_ops (state_of self.old) sweep.now.count (sweep_ops task sweep.now)) }
        ensures sound { OnOk result (IsSound (state_of self.new)) }
    {
        let total = match self.weight.checked_add(sweep.count) {
            Some(total) if total <= MOST_WEIGHT => total,
            _ => return Err(LineError::Fault(LineFault::TooLarge)),
        };
        push_accesses(&mut self.ops, task, sweep)?;
        self.weight = total;
        Ok(())
    }

    /// The open thread, if there is one, is closed.
    #[tactic(auto, using(crate::proofs::Limits::keeping))]
    pub fn close_thread(&mut self) -> Result<(), LineError>
        requires { IsSound (state_of self.old) }
        ensures said { Means result (state_of self.new) (Ok (close_thread (state_of self.old))) }
        ensures limits { OnOk result (InLimits 1 0 0 (state_of self.new)) }
    {
        if self.place == LinePosition::Thread {
            let ops = mem::replace(&mut self.ops, Ops::create(self.alloc));
            self.threads.push(ops)?;
        }
        Ok(())
    }

    /// The open phase, if there is one, is closed.
    #[tactic(auto, using(crate::proofs::Limits::keeping))]
    pub fn close_phase(&mut self) -> Result<(), LineError>
        requires { IsSound (state_of self.old) }
        ensures said { Means result (state_of self.new) (Ok (close_phase (state_of self.old))) }
        ensures limits { OnOk result (InLimits 0 1 0 (state_of self.new)) }
    {
        if self.place == LinePosition::Head {
            return Ok(());
        }
        match self.close_thread() {
            Ok(()) => {}
            Err(error) => return Err(error),
        }
        let order = mem::replace(&mut self.order, Vec::new(self.alloc));
        let threads = mem::replace(&mut self.threads, Vec::new(self.alloc));
        self.phases.push(Phase::new(order, threads))?;
        Ok(())
    }
}
