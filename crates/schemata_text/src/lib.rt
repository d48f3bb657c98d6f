//! The text of schemata: a capacity bitmask for each of some L3 domains.
#![tactic(auto)]

pub mod assignment;
pub mod fault;
pub mod printing;
pub mod reading;
pub mod theorems;

pub use assignment::{Assignment, Assignments};
pub use fault::TextFault;
pub use printing::print;
pub use reading::{entries, entry, read};
