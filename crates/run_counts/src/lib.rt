//! What is counted from the journals of a run. A call that runs out of memory answers NoMemory.
#![tactic(auto)]

mod cache_counts;
mod counting;
mod counts;
mod domain_lines;
mod domains;
mod line_counts;
mod placed_line;
mod refusals;
mod run_counts;
mod running_tally;
mod streak;
mod tally;
mod touches;
mod walk;
pub mod window;

pub use cache_counts::CacheCounts;
pub use counts::Counts;
pub use domain_lines::DomainLines;
pub use domains::{number_of, slices_of};
pub use refusals::count_refused;
pub use run_counts::RunCounts;
pub use tally::Tally;
pub use touches::{Touches, is_accepted_touch};
pub use window::Window;
