//! What the lines of scripts and of like texts have in common: tasks, arguments, the text of a write, the keys of a machine,
//! paths, and what may be wrong with a line.
#![tactic(auto)]

pub mod arguments;
pub mod escapes;
pub mod fault;
pub mod keys;
pub mod machine_line;
pub mod paths;
pub mod tasks;

pub use fault::{LineError, LineFault, ScriptError, ScriptFault};
