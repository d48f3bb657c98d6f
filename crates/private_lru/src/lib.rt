//! What a group's accesses would do in a private cache, the law that a slice does the same, and what is counted of the windows of
//! several groups that begin at one flush or lock of a slice. A call that runs out of memory answers NoMemory.
//!
//! How long something is held: spans, each of something and of the last epoch up to which it is held without a break. Crates above
//! say what it is that is held, and when.
#![tactic(auto)]

pub mod counts;
mod ends;
pub mod exclusive_span;
pub mod item;
pub mod keeping;
pub mod private;
mod reaches;
pub mod span;
mod span_set;
pub mod tallies;
pub mod theorems;
pub mod users;
mod uses;

pub use counts::WindowCounts;
pub use exclusive_span::ExclusiveSpan;
pub use item::Item;
pub use keeping::{HoldsAt, keep_on};
pub use private::private_hits;
pub use span::Span;
pub use tallies::counts_of;
