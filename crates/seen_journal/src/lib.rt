//! Journals that threads share: one list that several threads add to, each with a pass that has seen a beginning of it.
#![tactic(auto)]

mod exchanges;
pub mod journal;
pub mod pass;
mod plays;
mod role;
mod rule;
mod steps;
mod view;

pub use journal::Journal;
pub use pass::Pass;
