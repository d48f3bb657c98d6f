//! The file `bit_usage`: who uses each way of each cache.
#![tactic(auto)]

pub mod letters;
pub mod printing;
pub mod theorems;

pub use letters::letter;
pub use printing::{USAGE_MAX, print};
