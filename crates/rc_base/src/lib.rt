//! What every crate of the simulator speaks of: names, replies and their reasons, and buffers with reserved room.
#![tactic(auto)]

pub mod look_list;
pub mod names;
pub mod reasons;
pub mod replies;
pub mod text_buf;
pub mod texts;
pub mod theorems;

pub use look_list::LookList;
pub use names::{Gid, Mode, NoMemory, Tag};
pub use reasons::{Argument, Wording};
pub use replies::{Errno, Reply, Why};
pub use text_buf::{TEXT_MAX, TextBuf};
pub use texts::is_text;
