//! The groups of the tree in order of creation, and what all groups but one use of a cache.
#![tactic(auto)]

mod edit;
pub mod group;
mod group_counts;
pub mod group_kind;
pub mod groups;
mod index;
mod key;
mod mode_counts;
mod opening;
pub mod theorems;
mod way_counts;

pub use group::Group;
pub use group_kind::GroupKind;
pub use groups::{Groups, PLACES};
