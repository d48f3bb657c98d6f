//! What the steps of one op have in common.

/// The op of a thread that takes a step.
#[derive(Clone, Copy)]
pub(crate) struct Turn {
    /// The thread, counted from 0 through the whole script.
    pub(crate) thread: u32,
    /// The number of the op in its thread, from 0.
    pub(crate) number: u32,
}

/// What an access asks for.
#[derive(Clone, Copy)]
pub(crate) struct Access {
    /// The task that makes it.
    pub(crate) task: u32,
    /// The CPU on which it runs.
    pub(crate) cpu: u8,
    /// The address, in bytes.
    pub(crate) addr: u64,
}
