//! The top call of `resctrl_check`: it exports the journals of a script's play, or checks whether journals are a run of a script. A
//! call that runs out of memory answers NoMemory, and writes nothing.
#![tactic(auto)]

pub mod calls;
pub mod checked;
mod checking;
pub mod ended;
mod exporting;
mod judging;
pub mod program;
mod programs;
pub mod status;
pub mod theorems;

pub use calls::{check_step, check_top};
pub use checked::Checked;
pub use ended::CheckEnded;
pub use program::run_check;
pub use status::CheckStatus;
