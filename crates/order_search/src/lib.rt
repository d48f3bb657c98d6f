//! The search for an order of all steps that makes given journals. Nothing is promised of what it finds: whoever uses an order plays
//! it. A call that runs out of memory answers NoMemory.
#![tactic(auto)]

mod attempts;
mod blocked;
mod jobs;
mod moments;
mod orders;
mod played;
mod search;
mod stepping;
pub mod steps;
mod threads;

pub use orders::{Found, orders_of};
pub use steps::{BlockedStep, StepKind};
