//! Plays scripts, and makes the reports of their runs.
ghost use Rattle.std.specs.Prelude.{◌≡◌, ◌≤◌, ◌<◌, List, ℕ, Ok, Err, length};
ghost use Rattle.call_rim.specs.Performing.{Performs};
ghost use Rattle.call_rim.specs.Within.{RefusesWithin, ReportsWithin, too_large_line};
ghost use Rattle.resctrl_top.specs.Endings.{IsPlayed, PlaysAs};
ghost use Rattle.resctrl_top.specs.Performances.{Plays, RefusesBytes};
ghost use Rattle.run_law.specs.Runs.{IsRun};
ghost use Rattle.top_parts.specs.Meaning.{meaning};
ghost use Rattle.top_parts.specs.declared.command.Command.TheVariants.{Run};
ghost use Rattle.trace_gen.specs.Trace.{trace_text};

use crate::report::report;
use call_rim::{Performed, TOO_LARGE};
use rc_base::NoMemory;
use rc_stream::Gate;
use report_pieces::Flags;
use run_law::Journals;
use run_windows::theorems::{regions_hold, windows_are_isolated, windows_are_one};
use script_ops::{MOST_SCRIPT_BYTES, Script};
use std::alloc::Global;
use std::sync::Wait;
use std::thread::Threads;
use top_parts::{Command, Form, InputError, Refusal, generate, line_of, script_in};
use trace_gen::MOST_THREAD_ACCESSES;

/// The line of a refusal.
pub(crate) fn refuse(alloc: Global, refusal: Refusal) -> Performed<Journals>
    ensures { (form : _) (bytes : List ℕ) → meaning bytes ≡ Err refusal → Performs RefusesBytes (IsPlayed form) bytes result }
{
    match line_of(alloc, refusal) {
        Ok(line) => Performed::Refused { line },
        Err(NoMemory) => Performed::NoMemory,
    }
}

// The report of a run that was played.
fn report_on(alloc: Global, form: Form, script: &Script, journals: Journals) -> Performed<Journals>
    requires run { IsRun script.now journals }
    requires plays { PlaysAs form.command script.now journals }
    ensures { (bytes : List ℕ) → meaning bytes ≡ Ok script.now → Plays form bytes result }
{
    // What the laws of windows say of every run of a script.
    let _threads = script.threads();
    windows_are_isolated();
    windows_are_one();
    regions_hold();
    match report(alloc, script, &journals, form.flags) {
        Ok(report) => Performed::Reported {
            outcome: journals,
            report,
        },
        Err(NoMemory) => Performed::NoMemory,
    }
}

/// Plays a script by its order lines.
pub(crate) fn play(alloc: Global, form: Form, script: &Script) -> Performed<Journals>
    ensures { (bytes : List ℕ) → meaning bytes ≡ Ok script.now → Plays form bytes result }
{
    match step_world::play(alloc, script) {
        Ok(journals) => report_on(alloc, form, script, journals),
        Err(NoMemory) => Performed::NoMemory,
    }
}

/// Plays the script that the generator makes of a number, by its order lines.
pub(crate) fn play_trace(alloc: Global, form: Form, n: u32) -> Performed<Journals>
    requires low { 1 ≤ n }
    requires high { n ≤ MOST_THREAD_ACCESSES }
    ensures { Plays form (trace_text n) result }
{
    match generate(alloc, n) {
        Ok(script) => play(alloc, form, &script),
        Err(NoMemory) => Performed::NoMemory,
    }
}

// Plays a script with a worker for each thread of a phase.
fn play_live<R: Threads + Wait + Sync, G: Gate>(
    rt: &R,
    alloc: Global,
    flags: Flags,
    script: &Script,
    gate: &G,
) -> Performed<Journals>
    ensures { (bytes : List ℕ) → meaning bytes ≡ Ok script.now → Plays (record { command = Run; flags = flags }) bytes result }
{
    let form = Form {
        command: Command::Run,
        flags,
    };
    match live_run::play(rt, alloc, script, gate) {
        Ok(journals) => report_on(alloc, form, script, journals),
        Err(NoMemory) => Performed::NoMemory,
    }
}

// The refusal of an input that is too large.
fn refuse_size(alloc: Global, bytes: &[u8]) -> Performed<Journals>
    requires { MOST_SCRIPT_BYTES < length bytes.now }
    ensures { (form : _) → Performs (RefusesWithin MOST_SCRIPT_BYTES RefusesBytes) (ReportsWithin MOST_SCRIPT_BYTES (IsPlayed form)) bytes.now result }
{
    match Vec::from_slice(alloc, TOO_LARGE.as_bytes()) {
        Ok(line) => Performed::Refused { line },
        Err(_) => Performed::NoMemory,
    }
}

/// What `run` makes of its input. (A method of `Program` could start no threads.)
pub(crate) fn run_bytes<R: Threads + Wait + Sync, G: Gate>(
    rt: &R,
    alloc: Global,
    flags: Flags,
    bytes: Vec<u8>,
    gate: &G,
) -> Performed<Journals>
    ensures { Performs (RefusesWithin MOST_SCRIPT_BYTES RefusesBytes) (ReportsWithin MOST_SCRIPT_BYTES (IsPlayed (record { command = Run; flags = flags }))) bytes.items result }
{
    if bytes.len() > MOST_SCRIPT_BYTES {
        return refuse_size(alloc, &bytes);
    }
    match script_in(alloc, bytes) {
        Ok(script) => play_live(rt, alloc, flags, &script, gate),
        Err(InputError::Bad(refusal)) => refuse(alloc, refusal),
        Err(InputError::NoMemory) => Performed::NoMemory,
    }
}
