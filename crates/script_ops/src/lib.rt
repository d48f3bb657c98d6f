//! Ops, phases and scripts: their values, weights and rules, their canonical texts and their limits.
#![tactic(auto)]

pub mod bytes;
pub mod limits;
mod numbering;
pub mod op;
mod op_at;
mod ops;
pub mod phase;
pub mod printing;
pub mod script;
mod slot;
pub mod text_lines;
pub mod theorems;
pub mod weights;
pub mod written;

pub use bytes::Bytes;
pub use limits::{
    MOST_ORDER, MOST_PATH_BYTES, MOST_PHASE_THREADS, MOST_PHASES, MOST_SCRIPT_BYTES, MOST_TASKS,
    MOST_TEXT_BYTES, MOST_THREADS, MOST_WEIGHT,
};
pub use op::Op;
pub use op_at::OpAt;
pub use ops::Ops;
pub use phase::Phase;
pub use printing::{push_op, push_op_text};
pub use script::Script;
pub use text_lines::next_line;
pub use weights::weight_of;
pub use written::push_written;
