//! The law of groups with two masks for each domain: their states, what each command does to one, and that a sound state stays
//! sound. The masks are those of data and code in the same caches, or those of two levels; one definition serves both.
//!
//! The runs of pair scripts, the windows of a group that has its ways for itself, and what it then notices of others: nothing.
#![tactic(auto)]

pub mod run_theorems;
pub mod theorems;
