//! The threads of a phase.

/// The threads of a phase: from the first one up to the end, and without the end.
#[derive(Clone, Copy, Debug, PartialEq, Eq)]
pub(crate) struct PhaseThreads {
    /// The first one, counted from 0 through the whole script.
    pub(crate) first: u32,
    /// The first one after them.
    pub(crate) end: u32,
}

impl PhaseThreads {
    /// Whether a thread is one of them.
    pub(crate) fn contains(self, thread: u32) -> bool {
        self.first <= thread && thread < self.end
    }
}
