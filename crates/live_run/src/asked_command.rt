//! A command that a thread asks for.

use script_ops::Op;

/// A command that a thread asks for.
#[derive(Clone, Copy)]
pub(crate) struct AskedCommand<'a> {
    /// The op.
    pub(crate) op: &'a Op,
    /// The number of the op in its thread, from 0.
    pub(crate) number: u32,
    /// Whether the text of a read or list is asked for.
    pub(crate) is_text_asked: bool,
}
