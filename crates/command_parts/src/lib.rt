//! Parts of commands that each tree of groups has: the replies to a written schemata text, the names of modes, and moves of tasks.
#![tactic(auto)]

pub mod mode_names;
pub mod schemata_replies;
pub mod task_moves;

pub use mode_names::{is_named, mode_name};
pub use schemata_replies::{overlap_refusal, text_refusal};
pub use task_moves::move_tasks;
