//! What comes of the attempt to take a step.

/// What a thread waits for.
#[derive(Clone, Copy, Debug, PartialEq, Eq)]
pub(crate) enum Wait {
    /// The next entry of this slice is of another op.
    Entry { slice: u8 },
    /// The tree is held, or the commands before this position are not all over.
    Tree,
    /// An access of this epoch has not read its tag.
    Tags { epoch: u32 },
    /// The journals say nothing of the op.
    Nothing,
}

/// What came of the attempt to take a step.
#[derive(Clone, Copy, Debug, PartialEq, Eq)]
pub(crate) enum Attempt {
    /// The step was taken.
    Stepped,
    /// The thread is at its end.
    Ended,
    /// The step has to wait.
    Waits(Wait),
}
