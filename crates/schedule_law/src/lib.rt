//! The law of one order: which journals have one order of all steps, that such journals are those of a play by order lists, and the
//! machine of steps as a state that threads share.
#![tactic(auto)]

pub mod accesses;
pub mod commands;
pub mod machine_of;
pub mod part;
pub mod phases;
pub mod sharing;
pub mod theorems;

pub use machine_of::MachineOf;
pub use part::{GivenTag, Happening, Part};
pub use sharing::Parts;
