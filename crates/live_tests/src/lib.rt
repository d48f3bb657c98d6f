//! Tests alone: the shared tree and slices driven by hand, as a caller outside of `live_run` has to drive them.
//!
//! Tests alone: two lists under locks of their own, to which two threads add in opposite orders, and the one order of all that they
//! added.
#![tactic(auto)]

mod cell;
mod entry;
mod merged;
mod opening;
mod racing;
mod timed;
mod worker;

pub use entry::Entry;
pub use racing::race;
pub use timed::{add_alone, add_beside};

#[cfg(test)]
mod shares;
#[cfg(test)]
mod tests;
