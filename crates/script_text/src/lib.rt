//! The reader of scripts: lines, and what each says.
#![tactic(auto)]

mod accesses;
mod commands;
mod kind;
pub mod laws;
mod lines;
mod orders;
mod reader;
mod reading;
mod structure;
mod usual;

pub use reading::read_script;
pub use script_lines::{LineFault, ScriptError, ScriptFault};
pub use script_ops::{Bytes, Op, Script, next_line, push_op};
