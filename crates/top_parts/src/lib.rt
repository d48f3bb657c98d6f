//! The parts of the top call that play nothing: the words of a call, the script of its input, and the line of a refusal. A call that
//! runs out of memory answers NoMemory.
#![tactic(auto)]

pub mod arguments;
pub mod command;
pub mod form;
pub mod input;
pub mod refusal;
pub mod words;

pub use arguments::words_of;
pub use command::Command;
pub use form::Form;
pub use input::{InputError, generate, script_in};
pub use refusal::{Refusal, line_of};
pub use words::{USAGE, form_of, usage};
