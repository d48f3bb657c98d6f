//! Plays pair scripts on data and code masks: the replies to the commands, and what was entered in the cache of each domain.
//! (Intel SDM volume 3, code and data prioritization.) A call that runs out of memory answers NoMemory.
#![tactic(auto)]

mod caches;
pub mod journals;
mod playing;
mod registers;

pub use journals::CdpJournals;
pub use playing::play;
