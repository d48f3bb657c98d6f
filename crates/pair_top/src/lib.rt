//! The top calls of `resctrl_cdp` and `resctrl_l2`: each reads a pair script, plays it, and writes the report of its run. A call that
//! runs out of memory answers NoMemory, and writes nothing.
#![tactic(auto)]

mod arguments;
pub mod calls;
pub mod ended;
mod input;
mod journals;
mod playing;
pub mod program;
mod refusal;
mod words;

pub use arguments::given_words;
pub use calls::{top_cdp, top_l2};
pub use ended::{CdpEnded, LevelEnded, PairEnded};
pub use program::{run_cdp, run_l2};
pub use words::{CDP_USAGE, Form, L2_USAGE, form_of};
