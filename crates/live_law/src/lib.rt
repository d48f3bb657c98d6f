//! The law of running threads: what the locks and the passes keep, and that it makes the journals a run when all threads are at their ends.
#![tactic(auto)]

pub mod theorems;
