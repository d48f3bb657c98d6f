//! What is made of a pair script, of either kind.
ghost use Rattle.std.specs.Prelude.{◌≡◌, ℕ, List, Ok};
ghost use Rattle.call_rim.specs.Performing.{Performs};
ghost use Rattle.pair_text.specs.PairReading.{pair_script_of};
ghost use Rattle.pair_top.specs.Ready.{IsReady};
ghost use Rattle.pair_top.specs.Refusals.{RefusesLine};
ghost use Rattle.pair_top.specs.Reports.{Plays};
ghost use Rattle.script_ops.specs.declared.limits.TheConstants.{MOST_SCRIPT_BYTES};

use crate::input::script_in;
use crate::journals::PairJournals;
use crate::refusal::refuse;
use call_rim::{Performed, Program};
use pair_text::{PairError, PairScript};
use rc_base::NoMemory;
use script_ops::MOST_SCRIPT_BYTES;
use std::alloc::Global;
use std::marker::PhantomData;

// The report of a run, with its journals.
fn report_run<J: PairJournals>(
    alloc: Global,
    script: &PairScript,
    journals: J,
    quiet: bool,
) -> Performed<J>
    requires ready { IsReady J.kind script.now }
    requires run { J.run script.now journals }
    requires isolated { J.isolated script.now journals }
    ensures { (bytes : List ℕ) → pair_script_of J.kind bytes ≡ Ok script.now → Performs (RefusesLine J.kind) (Plays J.kind J.run J.isolated J.listed J.report_of quiet) bytes result }
{
    match journals.report(alloc, script, quiet) {
        Ok(report) => Performed::Reported {
            outcome: journals,
            report,
        },
        Err(NoMemory) => Performed::NoMemory,
    }
}

// The report of a script's run, with its journals.
fn play_script<J: PairJournals>(alloc: Global, script: &PairScript, quiet: bool) -> Performed<J>
    requires { IsReady J.kind script.now }
    ensures { (bytes : List ℕ) → pair_script_of J.kind bytes ≡ Ok script.now → Performs (RefusesLine J.kind) (Plays J.kind J.run J.isolated J.listed J.report_of quiet) bytes result }
{
    match J::play(alloc, script) {
        Ok(journals) => report_run(alloc, script, journals, quiet),
        Err(NoMemory) => Performed::NoMemory,
    }
}

/// Plays a script of the kind that has these journals.
#[derive(Drop)]
pub(crate) struct PairProgram<J> {
    /// Whether the report leaves out the commands.
    pub(crate) quiet: bool,
    /// The kind.
    pub(crate) of: PhantomData<J>,
}

impl<J: PairJournals> Program for PairProgram<J> {
    type Outcome = J;

    ghost most = { λ p. MOST_SCRIPT_BYTES };

    ghost refuses = { λ p. RefusesLine J.kind };

    ghost reports = { λ p. Plays J.kind J.run J.isolated J.listed J.report_of p.quiet };

    fn most_bytes(&self) -> usize {
        MOST_SCRIPT_BYTES
    }

    fn perform(&self, alloc: Global, bytes: Vec<u8>) -> Performed<J> {
        match script_in(alloc, bytes, J::kind()) {
            Ok(script) => play_script(alloc, &script, self.quiet),
            Err(PairError::Bad { line, what }) => refuse(alloc, line, what),
            Err(PairError::NoMemory) => Performed::NoMemory,
        }
    }
}
