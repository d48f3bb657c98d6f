//! The ops of a pair script, which is one on groups with two masks for each domain: commands on files, and uses of lines. And the
//! record of such a group, and of one of its masks.
//!
//! The two masks are those of data and of code in the same caches (Intel SDM volume 3, code and data prioritization), or those of an
//! L2 and of an L3.
//!
//! The reader of pair scripts, which are scripts on groups with two masks for each domain.
//!
//! Both kinds have the lines `machine`, `tasks`, `mkdir /NAME`, `rmdir /NAME`, `write FILE TEXT`, `read FILE` and `flush`. A script on
//! data and code masks has traces of Valgrind's lackey besides, between `trace TASK CPU` and `end`, and one on two levels has
//! `access` and `sweep`. All of it is this project's profile.
#![tactic(auto)]

mod accesses;
mod commands;
pub mod fault;
pub mod file;
pub mod group;
pub mod kind;
mod kind_names;
pub mod limits;
mod lines;
pub mod name;
pub mod op;
mod pair_keys;
mod pair_paths;
mod reader;
mod reading;
pub mod script;
pub mod side;
pub mod side_mask;
mod stop;
mod structure;
pub mod theorems;
mod traces;

pub use fault::{PairError, PairFault};
pub use file::PairFile;
pub use group::PairGroup;
pub use kind::PairKind;
pub use name::GroupName;
pub use op::PairOp;
pub use reading::read_pair;
pub use script::PairScript;
pub use side::Side;
pub use side_mask::SideMask;
