//! The windows of pair scripts, each with its counts: those of runs with code and data prioritization in which one side of a group
//! has its ways for itself, and those of runs with two levels in which a group has its ways of an L3 domain, and of the L2 domains
//! in it, for itself. The tree of groups is taken through the commands once more by `Replay`. A call that runs out of memory
//! answers NoMemory.
#![tactic(auto)]

mod cdp_domains;
mod cdp_run;
mod cdp_walks;
pub mod cdp_window;
mod commands;
mod counted;
mod counted_groups;
mod domain_walks;
pub mod domains;
mod fronts;
mod hits;
mod joint_counted;
mod joint_listing;
pub mod joint_theorems;
pub mod joint_window;
pub mod level_journals_ref;
mod level_masks;
mod level_spans;
mod level_walks;
mod line_uses;
pub mod partition;
mod partition_spans;
mod quiet;
pub mod replay;
mod segments;
pub mod theorems;
mod windows;

pub use cdp_window::CdpWindow;
pub use commands::is_command;
pub use domains::machine_on;
pub use joint_listing::joint_windows;
pub use joint_window::JointWindow;
pub use level_journals_ref::LevelJournalsRef;
pub use partition::Partition;
pub use replay::Replay;
pub use windows::cdp_windows;
