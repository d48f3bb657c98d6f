//! The reports of runs of pair scripts. A call that runs out of memory answers NoMemory, and then the text is not to be used.
#![tactic(auto)]

mod answered_command;
mod caches;
mod cdp;
mod cdp_groups;
mod cdp_window_lines;
mod command_text;
mod command_walk;
mod commands;
mod counted_caches;
mod counts;
mod domains;
mod groups;
mod level;
mod level_groups;
mod level_window_lines;
mod made;

pub use cdp::cdp_report;
pub use level::level_report;
