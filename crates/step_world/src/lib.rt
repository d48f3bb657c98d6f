//! Plays a script step by step: its tree, its slices and its threads. A call that runs out of memory answers NoMemory; no step
//! takes any.
//!
//! What a step of a thread does to a cache, and what the entry in the slice's journal says of it: an access with a tag that is
//! not stale, and what follows a command.
#![tactic(auto)]

pub mod action;
mod closing;
mod commands;
pub mod effects;
pub mod entries;
mod fresh;
mod fresh_journals;
mod listed;
mod opening;
mod passing;
mod playback;
pub mod reached;
mod run_phase;
pub mod slice;
mod step;
mod steps;
pub mod theorems;
pub mod thread_state;
mod turn;
pub mod work;
pub mod world;

pub use action::{Action, Stepped};
pub use effects::{enact, reach};
pub use entries::{access_of, entry};
pub use playback::play;
pub use reached::Reached;
pub use theorems::each_schedule_is_a_run;
pub use thread_state::{Thread, ThreadState};
pub use world::World;
