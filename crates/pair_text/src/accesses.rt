//! The lines of single uses and of sweeps.
ghost use Rattle.std.specs.Prelude.{◌≡◌, ◌+◌, ◌*◌, ◌-◌, ◌<◌, ◌≤◌, ◌^◌, ◌∷◌, ◌++◌, [], map, OnOk, vec_len, vec_capacity};
ghost use Rattle.std.specs.List.{range_with_len};
ghost use Rattle.pair_text.specs.PairLines.{means, use_at, use_in, with_uses};
ghost use Rattle.pair_text.specs.Readers.{IsSound, Means, state_of};
ghost use Rattle.pair_text.specs.declared.kind.Kind.TheVariants as kinds;

use crate::PairOp;
use crate::kind::{PairKind, Place};
use crate::limits::MOST_USES;
use crate::reader::PairReader;
use crate::stop::{Stop, bad};
use lackey_text::LineUse;
use script_lines::LineFault;
use script_lines::arguments::{Sweep, access_args, sweep_args};
use script_lines::tasks::declared_task;

// How many bytes a line of memory has.
const LINE_BYTES: u64 = 64;

impl PairReader {
    /// Adds a use of a line by a task on a CPU.
    pub fn push_use(&mut self, task: u32, cpu: u8, used: LineUse) -> Result<(), Stop>
        requires { IsSound (state_of self.old) }
        ensures said { Means result (state_of self.new) (with_uses (state_of self.old) 1 (use_in task cpu used ∷ [])) }
        ensures sound { OnOk result (IsSound (state_of self.new)) }
    {
        let total = self.uses + 1;
        if total > MOST_USES {
            return Err(bad(LineFault::TooLarge));
        }
        self.ops.push(PairOp::Use {
            task,
            cpu,
            line: used.line,
            code: used.code,
        })?;
        self.uses = total;
        Ok(())
    }

    /// `access TASK CPU ADDR`
    #[tactic(auto, unfolding(crate::specs::PairLines::means))]
    pub fn access(&mut self, kind: PairKind, text: &[u8]) -> Result<(), Stop>
        requires { IsSound (state_of self.old) }
        ensures said { Means result (state_of self.new) (means kind kinds.Access (state_of self.old) text.now) }
        ensures sound { OnOk result (IsSound (state_of self.new)) }
    {
        let Some(used) = access_args(&self.machine, text) else {
            return Err(bad(LineFault::BadArgument));
        };
        let Some(task) = declared_task(&self.tasks, used.task) else {
            return Err(bad(LineFault::UnknownTask));
        };
        self.place = Place::Body;
        let line = used.at / LINE_BYTES;
        self.push_use(task, used.cpu, LineUse { line, code: false })
    }

    // Adds the uses of a sweep.
    fn push_sweep(&mut self, task: u32, sweep: &Sweep) -> Result<(), Stop>
        requires sound { IsSound (state_of self.old) }
        requires some { 0 < sweep.now.count }
        requires last { sweep.now.first.at + (sweep.now.count - 1) * sweep.now.stride < 2 ^ 48 }
        ensures said { Means result (state_of self.new) (with_uses (state_of self.old) sweep.now.count (map (use_at task sweep.now) (range_with_len 0 sweep.now.count))) }
        ensures sound { OnOk result (IsSound (state_of self.new)) }
    {
        let total = match self.uses.checked_add(sweep.count) {
            Some(total) if total <= MOST_USES => total,
            _ => return Err(bad(LineFault::TooLarge)),
        };
        self.ops.reserve(sweep.count as usize)?;
        push_sweep_uses(&mut self.ops, task, sweep);
        self.uses = total;
        Ok(())
    }

    /// `sweep TASK CPU ADDR COUNT STRIDE`
    #[tactic(auto, unfolding(crate::specs::PairLines::means))]
    pub fn sweep(&mut self, kind: PairKind, text: &[u8]) -> Result<(), Stop>
        requires { IsSound (state_of self.old) }
        ensures said { Means result (state_of self.new) (means kind kinds.Sweep (state_of self.old) text.now) }
        ensures sound { OnOk result (IsSound (state_of self.new)) }
    {
        let Some(sweep) = sweep_args(&self.machine, text) else {
            return Err(bad(LineFault::BadArgument));
        };
        let Some(task) = declared_task(&self.tasks, sweep.first.task) else {
            return Err(bad(LineFault::UnknownTask));
        };
        self.place = Place::Body;
        self.push_sweep(task, &sweep)
    }
}

// Adds the uses of a sweep, for which there is room. It takes no memory.
fn push_sweep_uses(ops: &mut Vec<PairOp>, task: u32, sweep: &Sweep)
    requires some { 0 < sweep.now.count }
    requires last { sweep.now.first.at + (sweep.now.count - 1) * sweep.now.stride < 2 ^ 48 }
    requires room { vec_len ops.old + sweep.now.count ≤ vec_capacity ops.old }
    ensures { ops.new.items ≡ ops.old.items ++ map (use_at task sweep.now) (range_with_len 0 sweep.now.count) }
{
    let first = sweep.first;
    let stride = sweep.stride;
    for i in 0..sweep.count {
        let line = (first.at + i * stride) / LINE_BYTES;
        ops.push_reserved(PairOp::Use {
            task,
            cpu: first.cpu,
            line,
            code: false,
        });
    }
}
