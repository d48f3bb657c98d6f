//! Whether entries of ops that come before others stand before theirs.
ghost use Rattle.std.specs.Prelude.{◌≡◌, ℕ, ◌<◌, ◌↔◌, IfOk, IsTrue, length, slice_index};
ghost use Rattle.journal_check.specs.Orders.{AreOfOps, AreOrdered};
ghost use Rattle.journal_check.specs.Tables.{ArePhases};
ghost use Rattle.machine.specs.Slices.{slice_count};
ghost use Rattle.run_law.specs.Growth.{EntriesInOrder};
ghost use Rattle.run_law.specs.Journals.{slice_at};
ghost use Rattle.script_ops.specs.Values.{threads_of};

use crate::phases::phases_of;
use cache_core::SliceEntry;
use rc_base::NoMemory;
use run_law::Journals;
use script_ops::Script;
use std::alloc::Global;

// Whether the entries of a slice are in order. `last` is a zero for each thread at first.
fn is_ordered(script: &Script, phases: &[u32], last: &mut [u32], entries: &[SliceEntry]) -> bool
    requires phases { ArePhases script.now phases.now }
    requires last { length last.old ≡ length (threads_of script.now) }
    requires zero { (t : ℕ) → slice_index last.old t ≡ 0 }
    requires of_ops { AreOfOps script.now entries.now }
    ensures { IsTrue result ↔ AreOrdered script.now entries.now }
{
    let mut phase = 0;
    for entry in entries {
        let thread = entry.thread as usize;
        if phases[thread] < phase {
            return false;
        }
        if entry.op < last[thread] {
            return false;
        }
        phase = phases[thread];
        last[thread] = entry.op;
    }
    true
}

/// Whether in each slice entries of ops that come before others stand before theirs, in the time of the entries.
pub fn are_in_order(alloc: Global, script: &Script, j: &Journals) -> Result<bool, NoMemory>
    requires all { length j.now.slices ≡ slice_count script.now.machine }
    requires of_ops { (i : ℕ) → AreOfOps script.now (slice_at j.now i) }
    ensures { IfOk result (λ yes. IsTrue yes ↔ EntriesInOrder script.now j.now) }
{
    let phases = phases_of(alloc, script)?;
    for i in 0..script.machine().slice_count() {
        let mut last = vec![in alloc; 0; phases.len()]?;
        if !is_ordered(script, &phases, &mut last, j.slice(u32::from(i))) {
            return Ok(false);
        }
    }
    Ok(true)
}
