//! What `step` makes of its input.
ghost use Rattle.resctrl_top.specs.Endings.{IsPlayed};
ghost use Rattle.resctrl_top.specs.Performances.{RefusesBytes};
ghost use Rattle.script_ops.specs.declared.limits.TheConstants.{MOST_SCRIPT_BYTES};

use crate::playing::{play, refuse};
use call_rim::{Performed, Program};
use run_law::Journals;
use script_ops::MOST_SCRIPT_BYTES;
use std::alloc::Global;
use top_parts::{Form, InputError, script_in};

/// Plays a script by its order lines.
#[derive(Drop)]
pub(crate) struct StepProgram {
    pub(crate) form: Form,
}

impl Program for StepProgram {
    type Outcome = Journals;

    ghost most = { λ p. MOST_SCRIPT_BYTES };

    ghost refuses = { λ p. RefusesBytes };

    ghost reports = { λ p. IsPlayed p.form };

    fn most_bytes(&self) -> usize {
        MOST_SCRIPT_BYTES
    }

    fn perform(&self, alloc: Global, bytes: Vec<u8>) -> Performed<Journals> {
        match script_in(alloc, bytes) {
            Ok(script) => play(alloc, self.form, &script),
            Err(InputError::Bad(refusal)) => refuse(alloc, refusal),
            Err(InputError::NoMemory) => Performed::NoMemory,
        }
    }
}
