//! Pseudo-locked regions: which a machine has, and which lines a Lock loads for them.
#![tactic(auto)]

pub mod laws;
pub mod lines;
pub mod region;
pub mod regions;

pub use laws::{first_lines, limits_are_stated};
pub use lines::{line_at, load_place};
pub use region::Region;
pub use regions::{DOMAINS, MAX_PLACED, Regions};
