//! Several programs on one machine: what each would miss with each number of ways of its own, how the ways are best divided, and what
//! all of them would miss if they shared all ways.
#![tactic(auto)]

mod choice;
pub mod demand;
mod demands;
mod division;
pub mod division_limits;
pub mod division_theorems;
pub mod filtered_played;
pub mod goal;
pub mod own_uses;
pub mod played;
pub mod program;
pub mod program_levels;
pub mod program_use;
mod report;
mod row;
pub mod score;
mod scores;
mod shared_cache;
pub mod shares;
pub mod step;
pub mod stream;
pub mod stream_limits;
mod table;
pub mod theorems;
mod totals;

pub use demand::Demand;
pub use division::divide;
pub use division_limits::{MOST_PROGRAMS, MOST_USES, MOST_WAYS, MOST_WEIGHT};
pub use filtered_played::FilteredPlayed;
pub use goal::Goal;
pub use own_uses::OwnUses;
pub use played::Played;
pub use program::Program;
pub use program_levels::ProgramLevels;
pub use program_use::ProgramUse;
pub use score::Score;
pub use shares::share_report;
pub use step::Step;
pub use stream::{BadStream, Stream};
pub use stream_limits::MOST_STREAM_BYTES;
