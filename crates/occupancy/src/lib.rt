//! How many lines of a slice each RMID has.
#![tactic(auto)]

pub mod counts;

pub use counts::Counts;
