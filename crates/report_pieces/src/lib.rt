//! The pieces of text that each form of report has. A call that runs out of memory answers NoMemory, and then the text that it
//! was adding to is not to be used.
#![tactic(auto)]

mod entry_text;
pub mod flags;
mod replies;
mod results;

pub use entry_text::{push_entry, push_entry_line, push_entry_text};
pub use flags::Flags;
pub use replies::{push_barred, push_reply};
pub use results::{push_result, push_words};
