//! Journals as text: what is written of each entry, and how a text is read back; there is one text for each value, so what is
//! written reads back. A call that runs out of memory answers NoMemory.
#![tactic(auto)]

mod commands;
mod counts;
mod cursor;
mod entries;
pub mod fault;
mod fields;
pub mod keeper;
pub mod kept_journals;
mod kind;
mod line_position;
mod printing;
mod pushing;
mod reader;
mod reading;
mod reasons;
mod slices;
mod taking;
pub mod theorems;
pub mod weighed_script;
mod weight;
mod whats;

pub use commands::command_of_line;
pub use counts::count_of_line;
pub use entries::entry_of_line;
pub use fault::ReadError;
pub use keeper::Keeper;
pub use kept_journals::KeptJournals;
pub use printing::print;
pub use reading::{read, read_with};
pub use weighed_script::WeighedScript;
