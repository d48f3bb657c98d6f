//! The simulated machine: its caches, its numbers of things, and the maps of CPUs and lines.
#![tactic(auto)]

mod cpu_table;
pub mod machine;
pub mod parameters;
pub mod slice_numbers;

pub use machine::Machine;
pub use parameters::Parameters;
