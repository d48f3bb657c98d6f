//! The programs of one cache.

use crate::demand::Demand;
use crate::goal::Goal;
use crate::program::Program;

/// The programs of one cache: what each asks of a division of its ways, and what each misses where all share them.
#[derive(Drop)]
pub(crate) struct SharedCache<'a> {
    /// What is to be best.
    pub goal: Goal,
    /// The programs.
    pub programs: &'a [Program],
    /// What each misses with ways of its own, and its wishes.
    pub demands: &'a [Demand],
    /// How often each misses where all share the ways.
    pub shared: &'a [u64],
}
