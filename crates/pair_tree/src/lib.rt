//! The tree of groups with two masks for each domain: what each command does to it, and whose an access is. The masks are those of
//! data and code in the same caches (Intel SDM volume 3, code and data prioritization), or those of an L2 and an L3.
#![tactic(auto)]

mod lookup;
mod machines;
mod masks;
mod mkdir;
mod mode;
mod opening;
mod overlaps;
mod printing;
mod reading;
mod resolving;
mod rmdir;
mod schemata;
mod sides;
mod step;
mod tables;
pub mod tag;
mod tasks;
pub mod tree;
mod uses;
mod write;

pub use tag::PairTag;
pub use tree::PairTree;
