//! What `export` and `check` make of their inputs.
ghost use Rattle.check_parts.specs.declared.form.Form.TheVariants.{Check, Export};
ghost use Rattle.check_parts.specs.declared.limits.TheConstants.{MOST_CHECK_BYTES};
ghost use Rattle.check_top.specs.Endings.{IsChecked, IsExported, Refuses};
ghost use Rattle.check_top.specs.Judgements.{IsJudged};
ghost use Rattle.script_ops.specs.declared.limits.TheConstants.{MOST_SCRIPT_BYTES};

use crate::checked::Checked;
use crate::checking::check_bytes;
use crate::exporting::step_bytes;
use crate::judging::{judge_bytes, refuse_beginning};
use call_rim::{EarlyProgram, Performed, Program};
use check_parts::{MOST_CHECK_BYTES, Play};
use journal_check::Verdict;
use rc_base::NoMemory;
use script_ops::MOST_SCRIPT_BYTES;
use std::alloc::Global;

/// Exports a script with the journals of its play by its order lines.
#[derive(Drop)]
pub(crate) struct ExportProgram {
    pub(crate) play: Play,
}

impl Program for ExportProgram {
    type Outcome = Checked;

    ghost most = { λ p. MOST_SCRIPT_BYTES };

    ghost refuses = { λ p. Refuses (Export p.play) };

    ghost reports = { λ p. IsExported p.play };

    fn most_bytes(&self) -> usize {
        MOST_SCRIPT_BYTES
    }

    fn perform(&self, alloc: Global, bytes: Vec<u8>) -> Performed<Checked> {
        step_bytes(alloc, bytes)
    }
}

/// Checks whether journals are a run of the script that stands before them.
#[derive(Drop)]
pub(crate) struct CheckProgram;

impl Program for CheckProgram {
    type Outcome = Checked;

    ghost most = { λ p. MOST_CHECK_BYTES };

    ghost refuses = { λ p. Refuses Check };

    ghost reports = { λ p. IsChecked };

    fn most_bytes(&self) -> usize {
        MOST_CHECK_BYTES
    }

    fn perform(&self, alloc: Global, bytes: Vec<u8>) -> Performed<Checked> {
        check_bytes(alloc, bytes)
    }
}

impl EarlyProgram for CheckProgram {
    fn refuse_beginning(&self, alloc: Global, bytes: &[u8]) -> Result<Option<Vec<u8>>, NoMemory> {
        refuse_beginning(alloc, bytes)
    }
}

/// Does what `CheckProgram` does, and hands back the verdict alone, so it keeps no more commands of the input than a run has.
#[derive(Drop)]
pub(crate) struct JudgeProgram;

impl Program for JudgeProgram {
    type Outcome = Verdict;

    ghost most = { λ p. MOST_CHECK_BYTES };

    ghost refuses = { λ p. Refuses Check };

    ghost reports = { λ p. IsJudged };

    fn most_bytes(&self) -> usize {
        MOST_CHECK_BYTES
    }

    fn perform(&self, alloc: Global, bytes: Vec<u8>) -> Performed<Verdict> {
        judge_bytes(alloc, bytes)
    }
}

impl EarlyProgram for JudgeProgram {
    fn refuse_beginning(&self, alloc: Global, bytes: &[u8]) -> Result<Option<Vec<u8>>, NoMemory> {
        refuse_beginning(alloc, bytes)
    }
}
