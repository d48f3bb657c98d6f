//! Which steps wait for one another.
ghost use Rattle.std.specs.Prelude.{◌≡◌, ◌<◌, IfSome, length};
ghost use Rattle.machine.specs.Slices.{slice_count};

use crate::attempts::{Attempt, Wait};
use crate::moments::Moment;
use crate::played::Played;
use crate::search::Search;
use crate::steps::{BlockedStep, StepKind};
use crate::threads::PhaseThreads;
use rc_base::NoMemory;
use run_law::Journals;
use script_ops::Script;
use std::alloc::Global;

// The step that a thread takes next, as it is told.
fn next_step(search: &Search, thread: u32) -> BlockedStep {
    let op = search.next_op(thread);
    let step = |kind: StepKind, slice: Option<u8>, epoch: u32| BlockedStep {
        thread,
        op,
        kind,
        slice,
        epoch: u64::from(epoch),
    };
    match search.moments.of(thread, op) {
        Moment::Access { epoch, slice, .. } => {
            if search.is_tagged(thread) {
                step(StepKind::Touch, Some(slice), epoch)
            } else {
                step(StepKind::Tag, None, epoch)
            }
        }
        Moment::Command { position } => match (search.holder() == Some(thread), search.next_job()) {
            (true, Some(job)) if job.follows => step(
                StepKind::Follow,
                Some(job.slice),
                position.wrapping_add(1),
            ),
            (true, Some(job)) => step(StepKind::Look, Some(job.slice), position),
            _ => step(StepKind::Take, None, position),
        },
        Moment::Unknown => step(StepKind::Take, None, search.over()),
    }
}

// A thread that has still to read the tag of an access at this epoch.
fn untagged_thread(search: &Search, epoch: u32, threads: PhaseThreads) -> Option<u32> {
    for thread in threads.first..threads.end {
        for op in search.next_op(thread)..search.moments.ops(thread) {
            let is_next = op == search.next_op(thread) && search.is_tagged(thread);
            if let Moment::Access { epoch: at, .. } = search.moments.of(thread, op)
                && at == epoch
                && !is_next
            {
                return Some(thread);
            }
        }
    }
    None
}

// The thread of an entry of a slice.
fn thread_at(script: &Script, journals: &Journals, slice: u8, position: u32) -> Option<u32>
    requires { length journals.now.slices ≡ slice_count script.now.machine }
{
    if script.machine().slice_count() <= slice {
        return None;
    }
    let entry = journals.slice(u32::from(slice)).get(position as usize)?;
    Some(entry.thread)
}

// The thread that another one waits for.
fn awaited(search: &Search, played: &Played<'_>, wait: Wait, threads: PhaseThreads) -> Option<u32>
    requires { length played.now.journals.now.slices ≡ slice_count played.now.script.now.machine }
{
    let journals = played.journals;
    match wait {
        Wait::Entry { slice } => thread_at(played.script, journals, slice, search.made_in(slice)),
        Wait::Tree => match search.holder() {
            Some(holder) => Some(holder),
            None => {
                let entry = journals.tree().get(search.over() as usize)?;
                Some(entry.thread)
            }
        },
        Wait::Tags { epoch } => untagged_thread(search, epoch, threads),
        Wait::Nothing => None,
    }
}

// The first of these threads that is not at its end.
fn first_blocked(search: &Search, threads: PhaseThreads) -> Option<u32> {
    for thread in threads.first..threads.end {
        if search.next_op(thread) < search.moments.ops(thread) {
            return Some(thread);
        }
    }
    None
}

// The thread that this one waits for. One of a later phase waits for the end of this phase, and so for the first thread that is blocked.
fn next_thread(
    search: &mut Search,
    played: &Played<'_>,
    thread: u32,
    threads: PhaseThreads,
) -> Option<u32>
    requires { length played.now.journals.now.slices ≡ slice_count played.now.script.now.machine }
{
    if !threads.contains(thread) {
        return first_blocked(search, threads);
    }
    match search.step(thread) {
        Attempt::Waits(wait) => awaited(search, played, wait, threads),
        _ => None,
    }
}

// Where a thread's step stands among these, and None where it does not.
fn place_of(steps: &[BlockedStep], thread: u32) -> Option<usize>
    ensures { IfSome result (λ place. place < length steps.now) }
{
    steps.iter().position(|step| step.thread == thread)
}

/// Steps of a phase with these threads, of which each waits for the next one, and the last for the first. There are such steps where the
/// threads are not all at their ends and none can take a step.
pub(crate) fn blocked_steps(
    alloc: Global,
    search: &mut Search,
    played: &Played<'_>,
    threads: PhaseThreads,
) -> Result<Vec<BlockedStep>, NoMemory>
    requires { length played.now.journals.now.slices ≡ slice_count played.now.script.now.machine }
{
    let mut steps: Vec<BlockedStep> = Vec::new(alloc);
    let mut thread = first_blocked(search, threads);
    for _ in 0..=search.threads() {
        let Some(here) = thread else { break };
        if let Some(place) = place_of(&steps, here) {
            let cycle = Vec::from_slice(alloc, &steps[place..])?;
            return Ok(cycle);
        }
        steps.push(next_step(search, here))?;
        thread = next_thread(search, played, here, threads);
    }
    Ok(steps)
}
