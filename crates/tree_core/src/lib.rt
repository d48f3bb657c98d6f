//! The tree of groups: what each command does to it, and whose an access is.
#![tactic(auto)]

mod classes;
mod control;
pub mod counts;
mod cpu_sets;
pub mod follow;
mod found_dir;
mod found_group;
mod freeing;
mod group_dir;
mod looks;
mod masks;
mod mode_text;
mod monitor;
mod places;
mod removal;
mod rmid_list;
mod schemata;
mod taking;
pub mod tree;

pub use counts::Counts;
pub use follow::{After, Follow};
pub use group_tree::{Group, GroupKind, Groups};
pub use tree::Tree;
