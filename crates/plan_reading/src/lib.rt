//! That the canonical lines of writes to files of control groups read back.
//!
//! That a script with its plan at its end is read as the script with the commands of the plan.
#![tactic(auto)]

pub mod plan_theorems;
pub mod theorems;
