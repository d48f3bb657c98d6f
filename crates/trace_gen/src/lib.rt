//! The generator of traces: scripts of four tasks in two groups, drawn from one number.
#![tactic(auto)]

mod beginning;
mod draws;
mod lines;
mod making;
mod phases;
mod script;
pub mod theorems;
mod trace;

pub use making::{MOST_THREAD_ACCESSES, make};
pub use script::make_script;
