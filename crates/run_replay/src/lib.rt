//! What the commands of a run made and gave, from its journals: the control groups, by the replies alone, and the text of each
//! accepted read and list, by the tree before it. The tree is taken through its history once more only where a text or the tree
//! itself is asked for, and only as far. A call that runs out of memory answers NoMemory.
#![tactic(auto)]

mod command_at;
mod group_history;
mod made_group;
mod playback;
mod replay;
mod run;
mod taken;
mod texts;

pub use command_at::CommandAt;
pub use group_history::made_groups;
pub use made_group::MadeGroup;
pub use playback::Playback;
pub use replay::Replay;
pub use run::Run;
pub use texts::GivenTexts;
