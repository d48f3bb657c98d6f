//! The top call of `resctrl_replay`: it reads a script with journals, and writes the script with an order of all steps that makes just
//! these journals, or the simulator's report of them. A call that runs out of memory answers NoMemory, and writes nothing.
#![tactic(auto)]

mod blocked_text;
pub mod calls;
pub mod ended;
mod flags;
pub mod form;
mod inserting;
mod lines;
mod numbers;
mod ordering;
pub mod outcome;
pub mod program;
mod replaying;
mod reporting;
mod same;
mod same_reply;
mod words;

pub use calls::top_replay;
pub use ended::ReplayEnded;
pub use outcome::Replayed;
pub use program::run_replayer;
pub use words::USAGE;
