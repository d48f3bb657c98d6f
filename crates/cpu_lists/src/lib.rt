//! The texts of CPU sets: a mask in hexadecimal groups, and a list of numbers and ranges.
#![tactic(auto)]

pub mod fault;
pub mod list_text;
pub mod masks;
pub mod numbers;
pub mod printing;
pub mod runs;
pub mod theorems;

pub use fault::CpuFault;
pub use list_text::read_list;
pub use masks::read_mask;
pub use printing::{print_list, print_mask};
