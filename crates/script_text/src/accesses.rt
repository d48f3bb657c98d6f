//! The lines that are accesses.
ghost use Rattle.std.specs.Prelude.{◌≡◌, ◌+◌, ◌*◌, ◌-◌, ◌<◌, ◌≤◌, ◌^◌, ◌++◌, OnOk};
ghost use Rattle.script_text.specs.States.{state_of, IsSound};
ghost use Rattle.script_text.specs.Meaning.{means, sweep_ops, Means};
ghost use Rattle.script_text.specs.Usual.{access_means};
ghost use Rattle.script_text.specs.declared.kind.Kind.TheVariants as kinds;

use crate::reader::Reader;
use rc_base::NoMemory;
use script_lines::arguments::{Sweep, Use, access_args, sweep_args, touch_args};
use script_lines::paths::find_path;
use script_lines::tasks::declared_task;
use script_lines::{LineError, LineFault};
use script_ops::{Op, Ops};

impl Reader {
    /// `access TASK CPU ADDR`
    #[tactic(auto, unfolding(crate::specs::Meaning::means))]
    pub fn access(&mut self, text: &[u8]) -> Result<(), LineError>
        requires { IsSound (state_of self.old) }
        ensures said { Means result (state_of self.new) (means kinds.Access (state_of self.old) text.now) }
        ensures sound { OnOk result (IsSound (state_of self.new)) }
    {
        let used = access_args(&self.machine, text);
        self.push_access(used)
    }

    /// Adds the access of an access line with these arguments.
    #[inline(always)]
    #[tactic(auto, using(crate::proofs::Limits::keeping))]
    pub fn push_access(&mut self, used: Option<Use>) -> Result<(), LineError>
        requires { IsSound (state_of self.old) }
        ensures said { Means result (state_of self.new) (access_means (state_of self.old) used) }
        ensures sound { OnOk result (IsSound (state_of self.new)) }
    {
        let Some(used) = used else {
            return Err(LineError::Fault(LineFault::BadArgument));
        };
        let Some(task) = declared_task(&self.tasks, used.task) else {
            return Err(LineError::Fault(LineFault::UnknownTask));
        };
        self.push_use(task, used.cpu, used.at)
    }

    /// `sweep TASK CPU ADDR COUNT STRIDE`
    #[tactic(auto, unfolding(crate::specs::Meaning::means), using(crate::proofs::Limits::keeping))]
    pub fn sweep(&mut self, text: &[u8]) -> Result<(), LineError>
        requires { IsSound (state_of self.old) }
        ensures said { Means result (state_of self.new) (means kinds.Sweep (state_of self.old) text.now) }
        ensures sound { OnOk result (IsSound (state_of self.new)) }
    {
        let Some(sweep) = sweep_args(&self.machine, text) else {
            return Err(LineError::Fault(LineFault::BadArgument));
        };
        let Some(task) = declared_task(&self.tasks, sweep.first.task) else {
            return Err(LineError::Fault(LineFault::UnknownTask));
        };
        self.push_sweep(task, &sweep)
    }

    /// `touch PATH OFFSET TASK CPU`
    #[tactic(auto, unfolding(crate::specs::Meaning::means), using(crate::proofs::Limits::keeping))]
    pub fn touch(&mut self, text: &[u8]) -> Result<(), LineError>
        requires { IsSound (state_of self.old) }
        ensures said { Means result (state_of self.new) (means kinds.Touch (state_of self.old) text.now) }
        ensures sound { OnOk result (IsSound (state_of self.new)) }
    {
        let Some((word, used)) = touch_args(&self.machine, text) else {
            return Err(LineError::Fault(LineFault::BadArgument));
        };
        let path = match find_path(word, self.machine.domains, &mut self.names) {
            Ok(path) => path,
            Err(error) => return Err(error),
        };
        let Some(task) = declared_task(&self.tasks, used.task) else {
            return Err(LineError::Fault(LineFault::UnknownTask));
        };
        let Some(path) = path else {
            return Err(LineError::Fault(LineFault::TooLarge));
        };
        let offset = used.at;
        let cpu = used.cpu;
        self.push(Op::Touch {
            path,
            offset,
            task,
            cpu,
        })
    }
}

/// Adds the accesses of a sweep. The room for all is taken at once.
pub fn push_accesses(ops: &mut Ops, task: u32, sweep: &Sweep) -> Result<(), NoMemory>
    requires some { 0 < sweep.now.count }
    requires last { sweep.now.first.at + (sweep.now.count - 1) * sweep.now.stride < 2 ^ 48 }
    ensures { OnOk result (ops.new ≡ ops.old ++ sweep_ops task sweep.now) }
{
    let first = sweep.first;
    let stride = sweep.stride;
    ops.reserve(sweep.count as usize)?;
    for i in 0..sweep.count {
        let addr = first.at + i * stride;
        ops.push_access(task, first.cpu, addr)?;
    }
    Ok(())
}
