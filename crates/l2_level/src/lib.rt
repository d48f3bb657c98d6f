//! Plays pair scripts on two levels: the replies to the commands, and what was entered in each L2 and in each L3 cache. A use that
//! misses in the L2 is asked of the L3, and a line that leaves the L2 changes nothing in the L3 (this project's profile). A call that
//! runs out of memory answers NoMemory.
#![tactic(auto)]

mod caches;
pub mod journals;
mod playing;

pub use journals::LevelJournals;
pub use playing::play;
