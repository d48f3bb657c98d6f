//! The parts of the call of `resctrl_check` that play nothing: its words, the division of an input into a script and journals, what
//! is wrong with an input, and the texts that are written. A call that runs out of memory answers NoMemory.
//!
//! The law that journals can be written: each number of the journals of a run is in the range of its field.
#![tactic(auto)]

pub mod bad_input;
pub mod beginnings;
mod clause_order;
pub mod division;
mod expected_journals;
pub mod exports;
pub mod form;
pub mod input;
mod judged_slices;
pub mod judging;
mod left_journals;
pub mod limits;
mod look_lists;
pub mod theorems;
pub mod verdicts;
pub mod words;
pub mod written_runs;

pub use bad_input::{BadInput, bad_line_of};
pub use beginnings::fault_of_beginning;
pub use division::{Division, divide};
pub use exports::export_text;
pub use form::{Form, Play};
pub use input::{CheckInput, InputError, held_in, script_in};
pub use judging::verdict_in;
pub use limits::MOST_CHECK_BYTES;
pub use verdicts::verdict_line;
pub use words::{USAGE, form_of, usage_bytes};
