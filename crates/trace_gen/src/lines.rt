//! The lines of a trace, each made in a buffer with reserved room.
ghost use Rattle.std.specs.Prelude.{◌≡◌, ◌+◌, ◌≤◌, ◌<◌, [], ◌∷◌, ◌++◌, OnOk, decimal, length};
ghost use Rattle.trace_gen.specs.Trace.{access_line, ended};

use num_text::push_dec;
use rc_base::{NoMemory, TextBuf};

/// How many tasks a trace has; each has a thread of its own.
pub(crate) const TASKS: u64 = 4;

/// Room for the line of an access, in bytes: a word of six, three numbers of at most 20 digits, and a byte that ends each.
pub(crate) const LINE_BYTES: usize = 70;

/// Each task has a CPU of its own, and leaves the next one out.
pub(crate) const CPU_STEP: u64 = 2;

/// The addresses of a task begin at its number times this.
pub(crate) const TASK_BYTES: u64 = 1 << 30;

/// How many lines of memory a task uses.
pub(crate) const TASK_LINES: u32 = 4_096;

/// How many bytes a line of memory has.
pub(crate) const MEMORY_LINE_BYTES: u64 = 64;

/// Adds a number after a space.
#[tactic(auto, using(crate::proofs::Sizes::number_sizes))]
pub(crate) fn push_number(n: u64, line: &mut TextBuf)
    requires { 20 < line.old.spare }
    ensures bytes { line.new.bytes ≡ line.old.bytes ++ (32 ∷ decimal n) }
    ensures spare { line.new.spare + (1 + length (decimal n)) ≡ line.old.spare }
    ensures short { line.old.spare ≤ line.new.spare + 21 }
{
    line.push(b' ');
    push_dec(n, line);
}

/// Adds the line of an access of a task, at the address that a draw gives it.
pub(crate) fn push_access_line(task: u64, draw: u32, line: &mut TextBuf)
    requires some { 1 ≤ task }
    requires few { task ≤ TASKS }
    requires room { LINE_BYTES ≤ line.old.spare }
    ensures bytes { line.new.bytes ≡ line.old.bytes ++ ended (access_line task draw) }
    ensures spare { line.new.spare + length (ended (access_line task draw)) ≡ line.old.spare }
{
    let addr = task * TASK_BYTES + u64::from(draw % TASK_LINES) * MEMORY_LINE_BYTES;
    line.push_all(b"access");
    push_number(task, line);
    push_number(CPU_STEP * (task - 1), line);
    push_number(addr, line);
    line.push(b'\n');
}

/// Moves what the buffer holds to the end of a text. After an error, which is out of memory, the text is as it was.
pub(crate) fn move_to(line: &mut TextBuf, text: &mut Vec<u8>) -> Result<(), NoMemory>
    ensures bytes { line.new.bytes ≡ [] }
    ensures spare { line.new.spare ≡ line.old.spare + length line.old.bytes }
    ensures text { OnOk result (text.new.items ≡ text.old.items ++ line.old.bytes) }
{
    let added = text.extend_from_slice(line.bytes());
    line.clear();
    match added {
        Ok(()) => Ok(()),
        Err(_) => Err(NoMemory),
    }
}
