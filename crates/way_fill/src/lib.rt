//! The search in one set of a cache: the way that holds a line, and the way that a fill takes.
#![tactic(auto)]

pub mod finding;
pub mod lanes;
pub mod victims;

pub use finding::find;
pub use lanes::equal_ways;
pub use victims::{least_used, victim};
