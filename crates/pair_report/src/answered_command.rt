//! A command of a script, with the reply to it.

use pair_text::PairOp;
use rc_base::Reply;

/// A command of a script, with the reply to it.
#[derive(Drop)]
pub(crate) struct AnsweredCommand<'a> {
    /// Its place among the ops.
    pub place: usize,
    /// Its position among the commands.
    pub position: usize,
    /// The command.
    pub op: &'a PairOp,
    /// The reply.
    pub reply: Reply,
}
