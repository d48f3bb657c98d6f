//! Which groups the CPUs belong to.
#![tactic(auto)]

pub mod cpus;
pub mod groups;
mod sets;
mod tables;

pub use cpus::{Cpus, DropsDefault, NotParents};
pub use groups::CpuGroups;
