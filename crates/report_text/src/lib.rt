//! The text report of a run: the lines that need no tree (those of a group by its counts, of domains, slices and windows, the last
//! line), and those of the commands. A call that runs out of memory answers NoMemory, and then the report is not to be used.
#![tactic(auto)]

mod commands;
mod counts;
mod domains;
mod groups;
pub mod report;
mod slice_lines;
mod text_groups;
mod totals;
mod windows;

pub use domains::push_domains;
pub use groups::push_group;
pub use report::{finish, head, text};
pub use slice_lines::push_journal;
pub use totals::push_total;
pub use windows::push_windows;
