//! The JSON report of a run: the parts that need no tree (keys, strings and numbers, the texts of a command, the values of groups,
//! domains, slices, windows and the total), and the report made of them. A call that runs out of memory answers NoMemory, and then
//! the report is not to be used.
#![tactic(auto)]

mod command_items;
mod commands;
mod domains;
mod groups;
mod json_groups;
mod members;
pub mod report;
mod slices;
mod strings;
mod texts;
mod totals;
mod windows;

pub use domains::push_domains;
pub use groups::push_group;
pub use members::{push_comma, push_key, push_number};
pub use report::{finish, head, text};
pub use slices::push_journal_part;
pub use texts::{push_result_text, push_text_lines, push_words_text};
pub use totals::push_total;
pub use windows::push_windows_part;
