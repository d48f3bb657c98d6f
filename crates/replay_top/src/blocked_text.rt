//! What is written where no order was found.
ghost use Rattle.std.specs.Prelude.{IfOk};
ghost use Rattle.replay_top.specs.Reports.{BeginsWith, no_order_line, too_long_line};

use crate::numbers::push_number;
use machine::Machine;
use order_search::{BlockedStep, StepKind};
use rc_base::NoMemory;
use std::alloc::Global;

// The word for a step.
fn word_of(kind: StepKind) -> &'static [u8] {
    match kind {
        StepKind::Take => b"take",
        StepKind::Look => b"look",
        StepKind::Follow => b"follow",
        StepKind::Tag => b"tag",
        StepKind::Touch => b"touch",
    }
}

// Adds the slice in which a step makes an entry: ` slice DOMAIN.SLICE`.
fn push_slice(
    alloc: Global,
    text: &mut Vec<u8>,
    slice: u8,
    machine: &Machine,
) -> Result<(), NoMemory> {
    text.extend_from_slice(b" slice ")?;
    push_number(alloc, text, u64::from(slice / machine.slices))?;
    text.push(b'.')?;
    push_number(alloc, text, u64::from(slice % machine.slices))
}

// Adds the line of a step: `THREAD.OP STEP slice DOMAIN.SLICE epoch EPOCH`, without the slice where it makes no entry.
fn push_step(
    alloc: Global,
    text: &mut Vec<u8>,
    step: BlockedStep,
    machine: &Machine,
) -> Result<(), NoMemory> {
    push_number(alloc, text, u64::from(step.thread))?;
    text.push(b'.')?;
    push_number(alloc, text, u64::from(step.op))?;
    text.push(b' ')?;
    text.extend_from_slice(word_of(step.kind))?;
    if let Some(slice) = step.slice {
        push_slice(alloc, text, slice, machine)?;
    }
    text.extend_from_slice(b" epoch ")?;
    push_number(alloc, text, step.epoch)?;
    text.push(b'\n')?;
    Ok(())
}

// A line for each of these steps.
fn steps_text(
    alloc: Global,
    steps: &[BlockedStep],
    machine: &Machine,
) -> Result<Vec<u8>, NoMemory> {
    let mut text = Vec::new(alloc);
    for step in steps {
        push_step(alloc, &mut text, *step, machine)?;
    }
    Ok(text)
}

/// The line `no order` and a line for each of these steps.
pub(crate) fn no_order_text(
    alloc: Global,
    steps: &[BlockedStep],
    machine: &Machine,
) -> Result<Vec<u8>, NoMemory>
    ensures { IfOk result (λ text. BeginsWith no_order_line text.items) }
{
    let lines = steps_text(alloc, steps, machine)?;
    let mut text = Vec::from_slice(alloc, b"no order\n".as_slice())?;
    text.extend_from_slice(&lines)?;
    Ok(text)
}

/// The line for an order that no script can hold.
pub(crate) fn too_long_text(alloc: Global) -> Result<Vec<u8>, NoMemory>
    ensures { IfOk result (λ text. BeginsWith too_long_line text.items) }
{
    let text = Vec::from_slice(alloc, b"order too long\n".as_slice())?;
    Ok(text)
}
