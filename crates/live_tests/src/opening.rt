//! The shares with which a race begins.
ghost use Rattle.std.specs.Prelude.{◌≡◌, ◌<◌, [], ◌∷◌, IfOk};
ghost use Rattle.shared_parts.specs.Words.{words_for};
ghost use Rattle.live_tests.specs.Merged.{part_of_list, part_of_thread};

use crate::merged::Parts;
use shared_parts::Share;
use std::alloc::{AllocError, Global};

/// A share for each list and for each thread.
#[derive(Drop)]
pub(crate) struct Shares {
    /// List 0.
    pub first: Parts,
    /// List 1.
    pub second: Parts,
    /// Thread 0.
    pub one: Parts,
    /// Thread 1.
    pub other: Parts,
}

/// The shares of a new state, with a lock for each list.
pub(crate) fn open(alloc: Global) -> Result<Shares, AllocError>
    ensures tables { IfOk result (λ s. (s.second.table ≡ s.first.table) × (s.one.table ≡ s.first.table) × (s.other.table ≡ s.first.table)) }
    ensures words { IfOk result (λ s. s.first.table.words ≡ words_for 2) }
    ensures lists { IfOk result (λ s. (s.first.parts ≡ part_of_list 0 [] ∷ []) × (s.second.parts ≡ part_of_list 1 [] ∷ [])) }
    ensures threads { IfOk result (λ s. (s.one.parts ≡ part_of_thread 0 [] ∷ []) × (s.other.parts ≡ part_of_thread 1 [] ∷ [])) }
{
    let mut other: Parts = Share::create(alloc, 2)?;
    let first = other.split()?;
    let second = other.split()?;
    let one = other.split()?;
    Ok(Shares {
        first,
        second,
        one,
        other,
    })
}
