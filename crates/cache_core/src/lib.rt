//! One slice of a partitioned L3 cache, and the histories that it stands for. A call that runs out of memory answers NoMemory.
#![tactic(auto)]

pub mod cache;
pub mod cached_line;
mod emptied;
pub mod entry;
mod lazy_sets;
mod line_table;
mod loading;
mod own_sets;
mod sets;
pub mod touched;
mod touching;
mod way_bits;

pub use cache::Cache;
pub use cached_line::CachedLine;
pub use entry::{SliceEntry, What};
pub use touched::Touched;
