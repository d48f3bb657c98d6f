//! The windows of a run in which a group has its ways for itself. A call that runs out of memory answers NoMemory.
//!
//! Worked rows of isolation: what its definitions say of a few entries, by computing.
#![tactic(auto)]

mod changes;
mod counting;
mod edit;
mod exclusive_group;
mod followed;
pub mod listing;
mod opened;
mod opening;
mod places;
pub mod quiet;
mod sweep;
pub mod theorems;
mod timeline;
pub mod worked_rows;

pub use followed::FollowedReplay;
pub use listing::{windows, windows_after};
pub use quiet::has_exclusive_write;
