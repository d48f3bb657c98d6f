//! Steps that wait for one another.

/// What a step does.
#[derive(Clone, Copy, Debug, PartialEq, Eq)]
pub enum StepKind {
    /// A command takes the tree.
    Take,
    /// A command counts lines in a slice, for its entry there.
    Look,
    /// A command makes an entry that follows it in a slice.
    Follow,
    /// An access reads its tag.
    Tag,
    /// An access hits or fills its line in a slice.
    Touch,
}

/// A step that has not happened, since it waits for another one.
#[derive(Clone, Copy, Debug, PartialEq, Eq)]
pub struct BlockedStep {
    /// The thread, counted from 0 through the whole script.
    pub thread: u32,
    /// The number of the op in its thread, from 0.
    pub op: u32,
    /// What the step does.
    pub kind: StepKind,
    /// The slice in which it makes an entry, by its number over all domains; None where it makes none.
    pub slice: Option<u8>,
    /// How many commands the tree has taken when the step happens.
    pub epoch: u64,
}
