//! Whether ops that come before others happened before them.
ghost use Rattle.std.specs.Prelude.{◌≡◌, ℕ, ◌+◌, ◌<◌, ◌≤◌, ◌↔◌, All, HoldsAt, IsTrue, MatchOption, length};
ghost use Rattle.journal_check.specs.Marks.{AreInOrderUpTo, AreStarts, IsEndOf, IsThreadEnd, IsThreadInOrder, OfPhase, PhaseInOrder, StartsInOrder, stop_of};
ghost use Rattle.journal_check.specs.Tables.{IsTableOf, row_of};
ghost use Rattle.run_law.specs.Growth.{MarksInOrder};
ghost use Rattle.script_ops.specs.declared.limits.TheConstants.{MOST_WEIGHT};

use crate::op_kinds::is_command_at;
use crate::op_table::OpTable;
use run_law::Journals;
use script_ops::{Ops, Script};

// When the op of this number ended, where it began then.
fn stop_of(ops: &Ops, i: usize, start: u64) -> u64
    requires there { i < length ops.now }
    requires start { start ≤ MOST_WEIGHT }
    ensures { HoldsAt (λ op. result ≡ stop_of op start) ops.now i }
{
    start + u64::from(is_command_at(ops, i))
}

// The last mark of the ops of a thread and of the barrier, where each began after those before it and after the barrier.
fn end_thread(ops: &Ops, starts: &[u64], barrier: u64) -> Option<u64>
    requires table { length starts.now ≡ length ops.now }
    requires few { All (λ n. n ≤ MOST_WEIGHT) starts.now }
    ensures { MatchOption result
        (IsThreadInOrder ops.now starts.now barrier → ⊥)
        (λ end. IsThreadInOrder ops.now starts.now barrier × IsThreadEnd ops.now starts.now barrier (length ops.now) end) }
{
    let mut end = barrier;
    for i in 0..ops.len() {
        let start = starts[i];
        if start < end {
            return None;
        }
        end = stop_of(ops, i, start);
    }
    Some(end)
}

// The last mark of the ops of a phase and of the barrier, where each thread is in order.
fn end_phase(script: &Script, starts: &OpTable, phase: u32, barrier: u64) -> Option<u64>
    requires phase { phase < length script.now.phases }
    requires table { IsTableOf script.now starts.now }
    requires few { (thread : ℕ) → All (λ n. n ≤ MOST_WEIGHT) (row_of starts.now thread) }
    ensures { MatchOption result
        (PhaseInOrder script.now starts.now phase barrier → ⊥)
        (λ end. PhaseInOrder script.now starts.now phase barrier × IsEndOf script.now starts.now (OfPhase script.now phase) barrier end) }
{
    let first = script.first_thread(phase);
    let mut greatest = barrier;
    for thread in first..first + script.thread_count(phase) {
        match end_thread(script.ops(thread), starts.row(thread), barrier) {
            Some(end) => greatest = greatest.max(end),
            None => return None,
        }
    }
    Some(greatest)
}

// Whether ops that come before others had ended when those began, by the table of when each began, in the time of the ops.
fn are_marks_in_order(script: &Script, starts: &OpTable) -> bool
    requires table { IsTableOf script.now starts.now }
    requires few { (thread : ℕ) → All (λ n. n ≤ MOST_WEIGHT) (row_of starts.now thread) }
    ensures { IsTrue result ↔ StartsInOrder script.now starts.now }
{
    let mut barrier = 0;
    for phase in 0..script.phases() {
        match end_phase(script, starts, phase, barrier) {
            Some(end) => barrier = end,
            None => return false,
        }
    }
    true
}

/// Whether ops that come before others happened before them, by the table of when each began.
pub fn are_in_order(script: &Script, j: &Journals, starts: &OpTable) -> bool
    requires starts { AreStarts script.now j.now starts.now }
    requires few { (thread : ℕ) → All (λ n. n ≤ MOST_WEIGHT) (row_of starts.now thread) }
    ensures { IsTrue result ↔ MarksInOrder script.now j.now }
{
    let _journals = j;
    are_marks_in_order(script, starts)
}
