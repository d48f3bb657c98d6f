//! Capacity bitmasks (CBM): which are valid, and masks as sets of ways.
#![tactic(auto)]

pub mod fault;
pub mod geometry;
pub mod sets;
pub mod theorems;
pub mod validity;

pub use fault::CbmFault;
pub use geometry::Geometry;
pub use sets::{count, has_way, lowest_run, overlaps};
pub use validity::check;
