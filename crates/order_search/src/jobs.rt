//! What the commands make in the slices, in the order of their steps.
ghost use Rattle.std.specs.Prelude.{◌≡◌, ◌<◌, length};
ghost use Rattle.machine.specs.Slices.{slice_count};

use crate::moments::{Moment, Moments};
use cache_core::{SliceEntry, What};
use rc_base::NoMemory;
use run_law::Journals;
use script_ops::Script;
use std::alloc::Global;

/// An entry that a command makes in a slice. A command counts the lines of one RMID after the other, in slice after slice; what
/// follows it goes to slice after slice too.
#[derive(Clone, Copy, Debug, PartialEq, Eq)]
pub(crate) struct Job {
    /// The position at which the tree took the command.
    pub(crate) command: u32,
    /// Whether the command is decided before it.
    pub(crate) follows: bool,
    /// How many such entries the command has before this one in the same slice.
    pub(crate) round: u32,
    /// The slice, by its number over all domains.
    pub(crate) slice: u8,
    /// The position of the entry in the slice.
    pub(crate) position: u32,
}

// The command of an entry, and how many entries of it came before, those that are looks and the others.
#[derive(Clone, Copy, Debug, PartialEq, Eq)]
struct Rounds {
    command: u32,
    looks: u32,
    follows: u32,
}

// The rounds with one entry more, and the round of this entry.
fn next_round(rounds: Rounds, command: u32, follows: bool) -> (Rounds, u32) {
    let Rounds {
        looks,
        follows: after,
        ..
    } = if rounds.command == command {
        rounds
    } else {
        Rounds {
            command,
            looks: 0,
            follows: 0,
        }
    };
    if follows {
        (
            Rounds {
                command,
                looks,
                follows: after.wrapping_add(1),
            },
            after,
        )
    } else {
        (
            Rounds {
                command,
                looks: looks.wrapping_add(1),
                follows: after,
            },
            looks,
        )
    }
}

// Whether a command makes such an entry after it is decided.
fn is_after(entry: &SliceEntry) -> bool {
    !matches!(entry.what, What::Look { .. })
}

// Adds the entries that commands make in a slice.
fn add_jobs(
    jobs: &mut Vec<Job>,
    moments: &Moments,
    journals: &Journals,
    slice: u8,
) -> Result<(), NoMemory>
    requires { slice < length journals.now.slices }
{
    let mut rounds = Rounds {
        command: u32::MAX,
        looks: 0,
        follows: 0,
    };
    let mut position: u32 = 0;
    for entry in journals.slice(u32::from(slice)) {
        if let Moment::Command { position: command } = moments.of(entry.thread, entry.op) {
            let follows = is_after(entry);
            let (now, round) = next_round(rounds, command, follows);
            rounds = now;
            jobs.push(Job {
                command,
                follows,
                round,
                slice,
                position,
            })?;
        }
        position = position.wrapping_add(1);
    }
    Ok(())
}

/// All that commands make in the slices, command after command.
pub(crate) fn jobs_of(
    alloc: Global,
    script: &Script,
    moments: &Moments,
    journals: &Journals,
) -> Result<Vec<Job>, NoMemory>
    requires { length journals.now.slices ≡ slice_count script.now.machine }
{
    let mut jobs = Vec::new(alloc);
    for slice in 0..script.machine().slice_count() {
        add_jobs(&mut jobs, moments, journals, slice)?;
    }
    jobs.sort_by_key(|job| (job.command, job.follows, job.round, job.slice))?;
    Ok(jobs)
}
