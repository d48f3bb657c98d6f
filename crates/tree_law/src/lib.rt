//! The law of the tree of groups: its states, what each command does to one, and that a sound state stays sound.
#![tactic(auto)]

pub mod follow;
pub mod theorems;

pub use follow::Follow;
