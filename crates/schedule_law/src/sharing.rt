//! The parts of the machine's state that live threads share.
ghost use Rattle.std.specs.Prelude.{◌≡◌, IfOk};
ghost use Rattle.schedule_law.specs.LiveParts.{LeavesScheduled, first};
ghost use Rattle.shared_parts.specs.Words.{words_for};

use crate::machine_of::{MachineOf, NamedScript};
use crate::part::{Happening, Part};
use shared_parts::Share;
use std::alloc::{AllocError, Global};

/// A share of the machine's state.
pub type Parts<N> = Share<Happening, Part, MachineOf<N>>;

/// All parts of the machine's state before the first step, with a word for each of so many locks.
pub fn open<N: NamedScript>(alloc: Global, locks: u32) -> Result<Parts<N>, AllocError>
    ensures words { IfOk result (λ r. r.table.words ≡ words_for locks) }
    ensures parts { IfOk result (λ r. r.parts ≡ first N.script) }
{
    Share::create(alloc, locks)
}

/// The journals that all parts together have when the last phase is over are scheduled.
pub fn close<N: NamedScript>(all: &mut Parts<N>)
    ensures same { all.new ≡ all.old }
    ensures scheduled { LeavesScheduled N.script all.old.parts }
{
    all.know();
}
