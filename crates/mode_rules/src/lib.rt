//! The rules of the modes: which masks may stand beside which, and the masks of a new group.
#![tactic(auto)]

pub mod domain_use;
pub mod overlap;
pub mod placing;
pub mod setup;

pub use domain_use::DomainUse;
pub use overlap::{Overlap, may_turn_exclusive, may_write_mask};
pub use placing::initial_mask;
pub use setup::{may_enter_setup, may_leave_setup};
