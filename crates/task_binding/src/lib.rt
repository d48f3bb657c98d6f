//! Which groups the tasks belong to.
#![tactic(auto)]

pub mod binding;
mod counts;
mod search;
pub mod tasks;

pub use binding::{BindFault, Binding};
pub use tasks::Tasks;
