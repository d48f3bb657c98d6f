//! The top calls: they read or make a script, play it and write its report. A call that runs out of memory answers NoMemory, and
//! writes nothing.
#![tactic(auto)]

pub mod calls;
pub mod ended;
mod live;
mod playing;
pub mod program;
mod programs;
pub mod report;

pub use call_rim::Status;
pub use calls::{top, top_step};
pub use ended::Ended;
pub use program::run_program;
