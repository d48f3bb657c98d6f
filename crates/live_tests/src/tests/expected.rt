//! What the threads are answered, and what stands in the slice.

use super::accesses::{entry_of, expected_accesses};
use super::turns::Answer;
use cache_core::{SliceEntry, What};
use rc_base::Reply;
use std::alloc::Global;
use std::test::Fail;

// How many commands the first thread makes.
const FIRST_COMMANDS: u32 = 7;

// The entries of its commands: the number of the command, the epoch after it, and what it does in the slice. Two write a mask, one a
// mode, and one flushes.
const FOLLOWED: [(u32, u64, What); 4] = [
    (0, 1, What::Raise),
    (2, 3, What::Raise),
    (3, 4, What::Raise),
    (5, 6, What::Flush),
];

/// What the threads are answered, in the order in which they take turns: each command is accepted.
pub fn expected_answers(alloc: Global) -> Result<Vec<Answer>, Fail> {
    let mut answers = Vec::new(alloc);
    for _ in 0..FIRST_COMMANDS {
        answers.push(Answer::Command(Reply::Ok))?;
    }
    for access in &expected_accesses(alloc)? {
        answers.push(Answer::Access(access.reached))?;
    }
    answers.push(Answer::Command(Reply::Ok))?;
    Ok(answers)
}

/// The entries of the slice, in the order in which the threads take turns.
pub fn expected_entries(alloc: Global) -> Result<Vec<SliceEntry>, Fail> {
    let mut entries = Vec::new(alloc);
    for (op, epoch, what) in FOLLOWED {
        entries.push(SliceEntry {
            thread: 0,
            op,
            epoch,
            what,
        })?;
    }
    for access in &expected_accesses(alloc)? {
        entries.push(entry_of(*access))?;
    }
    Ok(entries)
}
