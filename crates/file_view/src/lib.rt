//! The texts that files and listings show, and the texts of reasons.
#![tactic(auto)]

mod cpus;
mod files;
mod find;
mod fixed;
mod lines;
mod listing;
mod mode;
mod numbers;
mod occupancy;
pub mod reasons;
mod schemata;
mod shown;
mod size;
mod status;
mod tasks;
pub mod theorems;
mod usage;
pub mod view;

pub use reasons::{REASON_MAX, reason};
pub use view::{is_reading, text};
