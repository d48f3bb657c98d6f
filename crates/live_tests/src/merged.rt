//! The state that the threads share: one list of all entries.
ghost use Rattle.live_tests.specs.Merged.{IsMerged, added, opening, shown};

use crate::entry::{Entry, Part};
use shared_parts::{Machine, Share};

/// One list of all entries, whose parts are what each list has and what each thread has added.
pub struct Merged;

impl Machine<Entry, Part> for Merged {
    ghost reached = { IsMerged };

    ghost after = { added };

    ghost first = { opening };

    ghost shown = { shown };
}

/// A share of the state.
pub(crate) type Parts = Share<Entry, Part, Merged>;
