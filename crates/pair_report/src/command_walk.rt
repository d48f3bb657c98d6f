//! How far the commands of a script are told.

use pair_windows::Replay;
use rc_base::TextBuf;

/// How far the commands of a script are told: what the lines of the next command need of those before it.
#[derive(Drop)]
pub(crate) struct CommandWalk {
    /// The tree, taken as far as the last accepted read.
    pub replay: Replay,
    /// How many commands were told.
    pub commands: usize,
    /// Room for the text of a file.
    pub file: TextBuf,
}
