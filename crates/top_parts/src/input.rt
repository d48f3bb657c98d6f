//! The script of an input.
ghost use Rattle.std.specs.Prelude.{◌≡◌, ◌≤◌, length, IfErr, IfOk, Ok};
ghost use Rattle.top_parts.specs.Meaning.{MeansAs, meaning};
ghost use Rattle.trace_gen.specs.Trace.{trace_text};

use crate::refusal::Refusal;
use rc_base::NoMemory;
use script_ops::{MOST_SCRIPT_BYTES, Script};
use script_text::{ScriptError, read_script};
use std::alloc::Global;
use trace_gen::theorems::{traces_are_scripts, traces_say_what_is_stated};
use trace_gen::{MOST_THREAD_ACCESSES, make_script};

/// Why bytes gave no script.
#[derive(Clone, Copy, Debug, PartialEq, Eq)]
pub enum InputError {
    /// Out of memory.
    NoMemory,
    /// The bytes are no script.
    Bad(Refusal),
}

/// The script that bytes are, where they are no more than a script may have. Bad with the first bad line where they are none. The
/// bytes are let go of.
pub fn script_in(alloc: Global, bytes: Vec<u8>) -> Result<Script, InputError>
    requires { length bytes.items ≤ MOST_SCRIPT_BYTES }
    ensures { MeansAs result (meaning bytes.items) }
{
    match read_script(alloc, &bytes) {
        Ok(script) => Ok(script),
        Err(ScriptError::Bad(fault)) => Err(InputError::Bad(Refusal::BadLine(fault))),
        Err(ScriptError::NoMemory) => Err(InputError::NoMemory),
    }
}

/// The script that the generator makes of a number, which is what a reader makes of its trace.
pub fn generate(alloc: Global, n: u32) -> Result<Script, NoMemory>
    requires low { 1 ≤ n }
    requires high { n ≤ MOST_THREAD_ACCESSES }
    ensures { IfOk result (λ script. meaning (trace_text n) ≡ Ok script) }
{
    traces_are_scripts();
    traces_say_what_is_stated();
    make_script(alloc, n)
}
