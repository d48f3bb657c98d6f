//! How far the steps of a run have been gone through.
ghost use Rattle.std.specs.Prelude.{◌≡◌, length};
ghost use Rattle.machine.specs.Slices.{slice_count};

use crate::jobs::{Job, jobs_of};
use crate::moments::{Moment, Moments, moments_of};
use rc_base::NoMemory;
use run_law::Journals;
use script_ops::Script;
use std::alloc::Global;

/// How far each thread and each slice is, and the command at hand.
#[derive(Drop)]
pub(crate) struct Search {
    pub(crate) moments: Moments,
    pub(crate) jobs: Vec<Job>,
    // For each epoch how many accesses have still to read their tags.
    pub(crate) untagged: Vec<u32>,
    // For each thread the number of its next op, and whether that is an access that has read its tag.
    pub(crate) next: Vec<u32>,
    pub(crate) tagged: Vec<bool>,
    // For each slice how many of its entries were made.
    pub(crate) made: Vec<u32>,
    // How many commands are over, who holds the tree, whether its command is decided, and how many jobs are done.
    pub(crate) over: u32,
    pub(crate) holder: Option<u32>,
    pub(crate) is_decided: bool,
    pub(crate) done: usize,
}

// Counts the accesses of each epoch.
fn untagged_of(
    alloc: Global,
    script: &Script,
    moments: &Moments,
    commands: usize,
) -> Result<Vec<u32>, NoMemory> {
    let mut untagged: Vec<u32> = vec![in alloc; 0; commands.saturating_add(1)]?;
    for thread in 0..script.threads() {
        for op in 0..moments.ops(thread) {
            if let Moment::Access { epoch, .. } = moments.of(thread, op)
                && let Some(count) = untagged.get_mut(epoch as usize)
            {
                *count = count.wrapping_add(1);
            }
        }
    }
    Ok(untagged)
}

impl Search {
    /// The search before the first step.
    pub(crate) fn create(
        alloc: Global,
        script: &Script,
        journals: &Journals,
    ) -> Result<Search, NoMemory>
        requires { length journals.now.slices ≡ slice_count script.now.machine }
    {
        let moments = moments_of(alloc, script, journals)?;
        let jobs = jobs_of(alloc, script, &moments, journals)?;
        let untagged = untagged_of(alloc, script, &moments, journals.tree().len())?;
        let threads = script.threads() as usize;
        Ok(Search {
            moments,
            jobs,
            untagged,
            next: vec![in alloc; 0; threads]?,
            tagged: vec![in alloc; false; threads]?,
            made: vec![in alloc; 0; usize::from(script.machine().slice_count())]?,
            over: 0,
            holder: None,
            is_decided: false,
            done: 0,
        })
    }

    /// How many steps there are at most: two of each access, and two of each command beside its entries.
    pub(crate) fn most_steps(&self, script: &Script) -> usize {
        let mut ops: usize = 0;
        for thread in 0..script.threads() {
            ops = ops.saturating_add(script.ops(thread).len());
        }
        ops.saturating_mul(2).saturating_add(self.jobs.len())
    }

    /// How many threads the script has.
    pub(crate) fn threads(&self) -> usize {
        self.next.len()
    }

    /// The number of a thread's next op.
    pub(crate) fn next_op(&self, thread: u32) -> u32 {
        self.next.get(thread as usize).copied().unwrap_or(u32::MAX)
    }

    /// How many entries of a slice were made.
    pub(crate) fn made_in(&self, slice: u8) -> u32 {
        self.made
            .get(usize::from(slice))
            .copied()
            .unwrap_or(u32::MAX)
    }

    /// How many commands are over.
    pub(crate) fn over(&self) -> u32 {
        self.over
    }

    /// Who holds the tree.
    pub(crate) fn holder(&self) -> Option<u32> {
        self.holder
    }

    /// Whether a thread's next op is an access that has read its tag.
    pub(crate) fn is_tagged(&self, thread: u32) -> bool {
        self.tagged.get(thread as usize).copied().unwrap_or(false)
    }

    /// The entry that the command at hand makes next, where it makes one more.
    pub(crate) fn next_job(&self) -> Option<Job> {
        let job = self.jobs.get(self.done).copied()?;
        if job.command == self.over {
            Some(job)
        } else {
            None
        }
    }
}
