//! Keeps inputs that are too large from a program.
ghost use Rattle.std.specs.Prelude.{◌≡◌, ◌<◌, List, ℕ, length, vec_len};
ghost use Rattle.call_rim.specs.Performing.{Performs};
ghost use Rattle.call_rim.specs.Within.{RefusesWithin, ReportsWithin, too_large_line};
ghost use Rattle.call_rim.specs.declared.performed.Performed.{Performed as Made};
ghost use Rattle.call_rim.specs.declared.performed.Performed.TheVariants.{Refused};

use crate::performed::Performed;
use crate::program::Program;
use std::alloc::Global;

/// The line that refuses an input of more bytes than a program takes (this project's profile).
pub const TOO_LARGE: &str = "line 0: script too large\n";

/// The refusal of every input that is too large.
pub(crate) fn refuse_size<P: Program>(alloc: Global, program: &P) -> Performed<P::Outcome>
    ensures { (bytes : List ℕ) → P.most program.now < length bytes → Performs (RefusesWithin (P.most program.now) (P.refuses program.now)) (ReportsWithin (P.most program.now) (P.reports program.now)) bytes result }
{
    match Vec::from_slice(alloc, TOO_LARGE.as_bytes()) {
        Ok(line) => Performed::Refused { line },
        Err(_) => Performed::NoMemory,
    }
}

/// What a program makes of an input, where that is not too large.
pub(crate) fn perform_within<P: Program>(
    alloc: Global,
    program: &P,
    bytes: Vec<u8>,
) -> Performed<P::Outcome>
    ensures { Performs (RefusesWithin (P.most program.now) (P.refuses program.now)) (ReportsWithin (P.most program.now) (P.reports program.now)) bytes.items result }
{
    if bytes.len() > program.most_bytes() {
        return refuse_size(alloc, program);
    }
    program.perform(alloc, bytes)
}
