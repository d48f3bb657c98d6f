//! Whether each access stands once among all entries, in the slice of its line.
ghost use Rattle.std.specs.Prelude.{◌≡◌, ℕ, ◌+◌, ◌<◌, ◌↔◌, IfOk, IsTrue, Some, false, length};
ghost use Rattle.journal_check.specs.Homes.{AllMarked, AreAtHome, AreMarked, HasMarks, MarksOp, home_at, home_of};
ghost use Rattle.journal_check.specs.Tables.{IsTableOf, number_at};
ghost use Rattle.machine.specs.Slices.{slice_count};
ghost use Rattle.run_law.specs.Journals.{slice_at};
ghost use Rattle.script_ops.specs.Fits.{Fits};

use crate::op_kinds::is_command_at;
use crate::op_table::OpTable;
use rc_base::NoMemory;
use run_law::Journals;
use script_ops::{Op, Ops, Script};
use std::alloc::Global;

// The slice of the line of an access, by its number over all domains, and None for a command.
fn home_of(script: &Script, op: &Op) -> Option<usize>
    requires { Fits script.now.machine script.now.tasks op.now }
    ensures { result ≡ home_of script.now.machine op.now }
{
    match *op {
        Op::Access { cpu, addr, .. } => {
            let m = script.machine();
            Some(m.first_slice(m.domain_of(cpu)) + usize::from(m.slice_of(addr / 64)))
        }
        _ => None,
    }
}

// The same of the op of these numbers, and None where there is none.
fn home_at(script: &Script, thread: u32, op: u32) -> Option<usize>
    ensures { result ≡ home_at script.now thread op }
{
    match script.op(thread, op) {
        Some(op) => home_of(script, op.get()),
        None => None,
    }
}

// Whether an op has no mark yet; then it gets one.
fn mark_op(marks: &mut OpTable, script: &Script, thread: u32, op: u32) -> bool
    requires table { IsTableOf script.now marks.old }
    ensures table { IsTableOf script.now marks.new }
    ensures marked { IsTrue result → MarksOp marks.old marks.new thread op }
    ensures unmarked { result ≡ false → (n : ℕ) → number_at marks.old thread op ≡ Some n → 0 < n }
{
    match marks.get(thread, op) {
        Some(0) => {
            marks.set(thread, op, 1);
            true
        }
        _ => false,
    }
}

// Whether the entry at position p of slice i, if it is of an access, is in the slice of its line and the first of it; then the access
// gets a mark.
fn mark(marks: &mut OpTable, script: &Script, j: &Journals, i: u32, p: usize) -> bool
    requires slice { i < length j.now.slices }
    requires position { p < length (slice_at j.now i) }
    requires table { IsTableOf script.now marks.old }
    requires marks { AreMarked script.now j.now i p marks.old }
    ensures table { IsTableOf script.now marks.new }
    ensures marked { IsTrue result → AreMarked script.now j.now i (p + 1) marks.new }
    ensures unmarked { result ≡ false → AreAtHome script.now j.now → ⊥ }
{
    let entries = j.slice(i);
    let entry = &entries[p];
    match home_at(script, entry.thread, entry.op) {
        Some(home) => home == i as usize && mark_op(marks, script, entry.thread, entry.op),
        None => true,
    }
}

// Whether each entry of slice i is so; then their accesses have marks.
fn mark_slice(marks: &mut OpTable, script: &Script, j: &Journals, i: u32) -> bool
    requires slice { i < length j.now.slices }
    requires table { IsTableOf script.now marks.old }
    requires marks { AreMarked script.now j.now i 0 marks.old }
    ensures table { IsTableOf script.now marks.new }
    ensures marked { IsTrue result → AreMarked script.now j.now (i + 1) 0 marks.new }
    ensures unmarked { result ≡ false → AreAtHome script.now j.now → ⊥ }
{
    let entries = j.slice(i);
    for p in 0..entries.len() {
        if !mark(marks, script, j, i, p) {
            return false;
        }
    }
    true
}

// Whether each access among the ops of a thread has a mark.
fn has_marks(ops: &Ops, marks: &[u64]) -> bool
    requires { length marks.now ≡ length ops.now }
    ensures { IsTrue result ↔ HasMarks ops.now marks.now }
{
    for i in 0..ops.len() {
        if !is_command_at(ops, i) && marks[i] != 1 {
            return false;
        }
    }
    true
}

// Whether each access of the script has one.
fn are_all_marked(marks: &OpTable, script: &Script) -> bool
    requires { IsTableOf script.now marks.now }
    ensures { IsTrue result ↔ AllMarked script.now marks.now }
{
    for thread in 0..script.threads() {
        if !has_marks(script.ops(thread), marks.row(thread)) {
            return false;
        }
    }
    true
}

/// Whether in each slice each access of the script has just one entry, where its line is there, and else none: in the time of the
/// entries and the ops. NoMemory where there is no room for a mark for each op.
pub fn are_accesses_once(alloc: Global, script: &Script, j: &Journals) -> Result<bool, NoMemory>
    requires { length j.now.slices ≡ slice_count script.now.machine }
    ensures { IfOk result (λ holds. IsTrue holds ↔ AreAtHome script.now j.now) }
{
    // The accesses of a script are of CPUs of its machine.
    let _threads = script.threads();
    let mut marks = OpTable::create(alloc, script)?;
    for i in 0..script.machine().slice_count() {
        if !mark_slice(&mut marks, script, j, u32::from(i)) {
            return Ok(false);
        }
    }
    Ok(are_all_marked(&marks, script))
}
