//! Exports scripts with the journals of their plays.
ghost use Rattle.std.specs.Prelude.{◌≡◌, ◌≤◌, List, ℕ, length};
ghost use Rattle.call_rim.specs.Performing.{Performs};
ghost use Rattle.call_rim.specs.Within.{RefusesWithin, ReportsWithin};
ghost use Rattle.check_parts.specs.BadInputs.{HasScript};
ghost use Rattle.check_parts.specs.declared.form.Form.TheVariants.{Export};
ghost use Rattle.check_parts.specs.declared.form.Play.TheVariants.{Run};
ghost use Rattle.check_top.specs.Endings.{IsExported, PlaysAs, Refuses};
ghost use Rattle.check_top.specs.Performances.{TellsBad};
ghost use Rattle.run_law.specs.Runs.{IsRun};

use crate::checked::Checked;
use crate::theorems::{runs_isolate, runs_read_back};
use call_rim::Performed;
use check_parts::{BadInput, InputError, bad_line_of, export_text, script_in};
use journal_check::Verdict;
use rc_base::NoMemory;
use rc_stream::Gate;
use run_law::Journals;
use script_ops::{MOST_SCRIPT_BYTES, Script};
use std::alloc::Global;
use std::sync::Wait;
use std::thread::Threads;

/// The line that says what is wrong with an input.
pub(crate) fn refuse<T: Drop>(alloc: Global, bad: BadInput) -> Performed<T>
    ensures { TellsBad bad result }
{
    match bad_line_of(alloc, bad) {
        Ok(line) => Performed::Refused { line },
        Err(NoMemory) => Performed::NoMemory,
    }
}

// The export of a script that was played.
fn export_of(
    alloc: Global,
    bytes: Vec<u8>,
    script: &Script,
    journals: Journals,
) -> Performed<Checked>
    requires { IsRun script.now journals }
    ensures { (play : _) → HasScript (Export play) bytes.items script.now → PlaysAs play script.now journals → Performs (Refuses (Export play)) (IsExported play) bytes.items result }
{
    // A script that was read is lawful.
    let _threads = script.threads();
    runs_isolate();
    runs_read_back();
    match export_text(alloc, bytes, script.machine(), &journals) {
        Ok(report) => Performed::Reported {
            outcome: Checked {
                journals,
                verdict: Verdict::Yes,
            },
            report,
        },
        Err(NoMemory) => Performed::NoMemory,
    }
}

// The export of a script that is played by its order lines.
fn step_script(alloc: Global, bytes: Vec<u8>, script: &Script) -> Performed<Checked>
    ensures { (play : _) → HasScript (Export play) bytes.items script.now → Performs (Refuses (Export play)) (IsExported play) bytes.items result }
{
    match step_world::play(alloc, script) {
        Ok(journals) => export_of(alloc, bytes, script, journals),
        Err(NoMemory) => Performed::NoMemory,
    }
}

/// The export of an input that is played by its order lines, or what is wrong with the input.
pub(crate) fn step_bytes(alloc: Global, bytes: Vec<u8>) -> Performed<Checked>
    requires { length bytes.items ≤ MOST_SCRIPT_BYTES }
    ensures { (play : _) → Performs (Refuses (Export play)) (IsExported play) bytes.items result }
{
    match script_in(alloc, &bytes) {
        Ok(script) => step_script(alloc, bytes, &script),
        Err(InputError::Bad(bad)) => refuse(alloc, bad),
        Err(InputError::NoMemory) => Performed::NoMemory,
    }
}

// The export of a script that is played with a worker for each thread of a phase.
fn run_script<R: Threads + Wait + Sync, G: Gate>(
    rt: &R,
    alloc: Global,
    bytes: Vec<u8>,
    script: &Script,
    gate: &G,
) -> Performed<Checked>
    ensures { HasScript (Export Run) bytes.items script.now → Performs (Refuses (Export Run)) (IsExported Run) bytes.items result }
{
    match live_run::play(rt, alloc, script, gate) {
        Ok(journals) => export_of(alloc, bytes, script, journals),
        Err(NoMemory) => Performed::NoMemory,
    }
}

/// The export of an input that is played with a worker for each thread, or what is wrong with the input. (A method of `Program` could
/// start no threads.)
pub(crate) fn run_bytes<R: Threads + Wait + Sync, G: Gate>(
    rt: &R,
    alloc: Global,
    bytes: Vec<u8>,
    gate: &G,
) -> Performed<Checked>
    ensures { Performs (RefusesWithin MOST_SCRIPT_BYTES (Refuses (Export Run))) (ReportsWithin MOST_SCRIPT_BYTES (IsExported Run)) bytes.items result }
{
    if bytes.len() > MOST_SCRIPT_BYTES {
        return refuse(alloc, BadInput::TooLarge);
    }
    match script_in(alloc, &bytes) {
        Ok(script) => run_script(rt, alloc, bytes, &script, gate),
        Err(InputError::Bad(bad)) => refuse(alloc, bad),
        Err(InputError::NoMemory) => Performed::NoMemory,
    }
}
