//! Where threads are between two steps.

use rc_base::Tag;

/// Where a thread is in its next op, between two atomic steps.
#[derive(Clone, Copy)]
pub enum ThreadState {
    /// Before Take or Tag, or at its end.
    Ready,
    /// After Take and so many looks: it holds the tree.
    Looking { made: u64 },
    /// After Decide and so many entries in all, its looks among them: it holds the tree.
    Following { made: u64 },
    /// After Tag: it holds nothing, and has this tag.
    Tagged { tag: Tag },
}

/// A thread: how many ops it has done, which is the number of its next one, and where it is in that.
#[derive(Clone, Copy)]
pub struct Thread {
    /// The number of its next op, from 0.
    pub next: u32,
    /// Where it is in that op.
    pub state: ThreadState,
}

impl Thread {
    /// Before its first op.
    pub(crate) const FIRST: Thread = Thread {
        next: 0,
        state: ThreadState::Ready,
    };
}
