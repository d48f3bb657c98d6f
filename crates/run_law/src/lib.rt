//! The law of runs: what the journals of a run are, when they are a run of a script, and what room a script's journals need.
//! A call that runs out of memory answers NoMemory.
#![tactic(auto)]

pub mod journals;
pub mod look_lists;
mod quotas;
mod rooms;
mod targets;
pub mod theorems;

pub use journals::{Journals, TreeEntry};
pub use look_lists::LookLists;
pub use quotas::most_counts;
pub use rooms::{add_ops, command_counts, command_room, count_commands, slice_rooms};
pub use targets::{slice_for, slices_for};
