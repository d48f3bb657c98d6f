//! Making a trace.
ghost use Rattle.std.specs.Prelude.{◌≡◌, ◌≤◌, IfOk};
ghost use Rattle.trace_gen.specs.Trace.{trace_text};

use crate::phases::{push_opening, push_order, push_threads};
use crate::trace::Trace;
use rc_base::NoMemory;
use std::alloc::Global;

/// How many accesses each task of a trace may make at most (this project's profile).
pub const MOST_THREAD_ACCESSES: u32 = 200_000;

/// The trace of a number n: the text of a script that makes two groups, the first of them exclusive, and in which four tasks
/// then make n accesses each, in an order and to addresses that are drawn from n. The numbers behind the draws are those of a
/// linear congruential generator of 31 bits, and n is the first (this project's profile). An error is out of memory.
#[tactic(auto, using(crate::proofs::Texts::trace_texts))]
pub fn make(alloc: Global, n: u32) -> Result<Vec<u8>, NoMemory>
    requires low { 1 ≤ n }
    requires high { n ≤ MOST_THREAD_ACCESSES }
    ensures { IfOk result (λ t. t.items ≡ trace_text n) }
{
    let mut trace = Trace::create(alloc, n)?;
    push_opening(&mut trace)?;
    push_order(&mut trace, n)?;
    push_threads(&mut trace, n)?;
    Ok(trace.into_text())
}
