//! The phase of each thread.
ghost use Rattle.std.specs.Prelude.{◌≡◌, ◌<◌, ◌++◌, IfOk, OnOk, length, replicate};
ghost use Rattle.journal_check.specs.Tables.{ArePhases};

use rc_base::NoMemory;
use script_ops::Script;
use std::alloc::Global;

// Adds a number so many times.
fn push_times(phases: &mut Vec<u32>, phase: u32, count: u32) -> Result<(), NoMemory>
    ensures { OnOk result (phases.new.items ≡ phases.old.items ++ replicate count phase) }
{
    'push: for _ in 0..count {
        phases.push(phase)?;
    }
    Ok(())
}

/// The number of the phase of each thread. NoMemory where there is no room for them.
pub fn phases_of(alloc: Global, script: &Script) -> Result<Vec<u32>, NoMemory>
    ensures { IfOk result (λ phases. ArePhases script.now phases.items) }
{
    let mut phases = Vec::new(alloc);
    for phase in 0..script.phases() {
        push_times(&mut phases, phase, script.thread_count(phase))?;
    }
    Ok(phases)
}
