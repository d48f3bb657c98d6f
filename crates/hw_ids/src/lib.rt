//! The ids that the hardware offers: classes of service (CLOSIDs), and resource monitoring ids (RMIDs) with their limbo.
#![tactic(auto)]

pub mod class_ids;
pub mod rmids;
pub mod theorems;
mod uses;

pub use class_ids::{ClassIds, MAX_CLASSES};
pub use rmids::{MAX_RMIDS, NoRmid, Rmids};
pub use theorems::{limits_are_stated, members};
