//! The simulator's report of the journals of an input.
ghost use Rattle.std.specs.Prelude.{◌≡◌, ◌≤◌, List, ℕ, length};
ghost use Rattle.call_rim.specs.Performing.{Performs};
ghost use Rattle.check_parts.specs.Inputs.{HoldsJournals};
ghost use Rattle.check_parts.specs.declared.limits.TheConstants.{MOST_CHECK_BYTES};
ghost use Rattle.machine.specs.Slices.{slice_count};
ghost use Rattle.replay_top.specs.Reports.{FindsReport, Refuses};
ghost use Rattle.run_law.specs.Runs.{IsRun};
ghost use Rattle.script_ops.specs.Values.{IsLawful};

use crate::outcome::Replayed;
use crate::replaying::{refuse, tell_clause};
use call_rim::{Performed, Program};
use check_parts::{CheckInput, InputError, MOST_CHECK_BYTES, held_in};
use journal_check::{Verdict, check};
use rc_base::NoMemory;
use report_pieces::Flags;
use resctrl_top::report::report;
use run_law::Journals;
use run_windows::theorems::{regions_hold, windows_are_isolated, windows_are_one};
use script_ops::Script;
use std::alloc::Global;

// The report of journals that are a run.
fn report_on(
    alloc: Global,
    script: &Script,
    journals: Journals,
    flags: Flags,
) -> Performed<Replayed>
    requires lawful { IsLawful script.now }
    requires run { IsRun script.now journals }
    ensures { (bytes : List ℕ) → HoldsJournals bytes script.now journals → Performs Refuses (FindsReport flags) bytes result }
{
    // What the laws of windows say of every run of a script.
    windows_are_isolated();
    windows_are_one();
    regions_hold();
    match report(alloc, script, &journals, flags) {
        Ok(report) => Performed::Reported {
            outcome: Replayed::Reported(journals),
            report,
        },
        Err(NoMemory) => Performed::NoMemory,
    }
}

// What is made of a script and of journals that have a list for each slice of its machine.
fn judge(alloc: Global, script: &Script, journals: Journals, flags: Flags) -> Performed<Replayed>
    requires { length journals.slices ≡ slice_count script.now.machine }
    ensures { (bytes : List ℕ) → HoldsJournals bytes script.now journals → Performs Refuses (FindsReport flags) bytes result }
{
    // A script that was read is lawful.
    let _threads = script.threads();
    match check(alloc, script, &journals) {
        Ok(Verdict::Yes) => report_on(alloc, script, journals, flags),
        Ok(Verdict::No { clause }) => tell_clause(alloc, script, &journals, clause),
        Err(NoMemory) => Performed::NoMemory,
    }
}

// What is made of an input.
fn report_bytes(alloc: Global, bytes: Vec<u8>, flags: Flags) -> Performed<Replayed>
    requires { length bytes.items ≤ MOST_CHECK_BYTES }
    ensures { Performs Refuses (FindsReport flags) bytes.items result }
{
    match held_in(alloc, bytes) {
        Ok(CheckInput { script, journals }) => judge(alloc, &script, journals, flags),
        Err(InputError::Bad(bad)) => refuse(alloc, bad),
        Err(InputError::NoMemory) => Performed::NoMemory,
    }
}

/// Writes the report of the journals of an input, with what the flags ask for.
#[derive(Drop)]
pub(crate) struct ReportProgram {
    pub(crate) flags: Flags,
}

impl Program for ReportProgram {
    type Outcome = Replayed;

    ghost most = { λ p. MOST_CHECK_BYTES };

    ghost refuses = { λ p. Refuses };

    ghost reports = { λ p. FindsReport p.flags };

    fn most_bytes(&self) -> usize {
        MOST_CHECK_BYTES
    }

    fn perform(&self, alloc: Global, bytes: Vec<u8>) -> Performed<Replayed> {
        report_bytes(alloc, bytes, self.flags)
    }
}
