//! Plays pair scripts of either kind: the groups with the replies to their commands, the caches of a level with their histories, and
//! the tags of accesses on one side. A call that runs out of memory answers NoMemory.
#![tactic(auto)]

pub mod caches;
pub mod commands;
pub mod level;
pub mod player;
pub mod recorded_cache;
pub mod side_tags;

pub use caches::Caches;
pub use commands::Commands;
pub use level::Level;
pub use player::{Played, play_on};
pub use recorded_cache::RecordedCache;
pub use side_tags::side_tag;
