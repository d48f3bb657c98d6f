//! A state that threads share and that only proofs see. Each part of it lies in one share, and a step of a share is a step of the
//! whole state, so all steps have one order.
#![tactic(auto)]

mod change;
mod exchanges;
pub mod machine;
mod plays;
mod rule;
pub mod share;
mod steps;
mod view;
mod words;

pub use machine::Machine;
pub use share::Share;
