//! The rim that the top calls share: input is read, a program makes its report of it, and the report is written. A call that runs
//! out of memory answers NoMemory, and writes nothing, unless its program passes its input on.
#![tactic(auto)]

pub mod calls;
mod early;
pub mod early_program;
pub mod ended;
mod feeding;
pub mod pass_program;
pub mod passing;
pub mod performed;
pub mod program;
pub mod reading;
pub mod status;
pub mod stream_program;
pub mod telling;
pub mod theorems;
mod within;
pub mod writing;

pub use calls::{call, call_early, stream, usage};
pub use early_program::EarlyProgram;
pub use ended::{Ended, without_outcome};
pub use pass_program::{MOST_DUE_BYTES, PassProgram, Passing};
pub use passing::pass;
pub use performed::Performed;
pub use program::Program;
pub use reading::{ReadError, read_all};
pub use status::Status;
pub use stream_program::{MOST_STREAM_BYTES, StreamProgram, Taken};
pub use telling::tell;
pub use within::TOO_LARGE;
pub use writing::write_all;
