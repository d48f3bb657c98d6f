//! The tree and the slices, each under a lock of its own, whose journals are a run.
#![tactic(auto)]

mod access;
mod around_tree;
mod asked_command;
mod cached_tag;
mod close;
mod closing_room;
mod command;
mod create;
mod fill;
mod first_passes;
mod four_slots;
pub mod live;
mod locks;
mod log;
pub mod logs;
mod parts;
pub mod passes;
pub mod phases;
mod quotas;
pub mod run_names;
mod seen;
mod slice;
mod slice_slot;
mod slice_slots;
mod slices;
mod slot_pair;
pub mod theorems;
mod thread_side;
mod tree;
mod turn;
mod whole_run;
mod worker;

pub use live::Live;
pub use logs::Logs;
pub use passes::Passes;
pub use run_names::RunNames;
pub use step_world::Reached;
pub use whole_run::play;
