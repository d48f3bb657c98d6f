//! What a step answers.

use cache_core::Touched;
use rc_base::Reply;

/// What a thread did in one atomic step.
#[derive(Clone, Copy, Debug, PartialEq, Eq)]
pub enum Action {
    /// A command took the tree.
    Took,
    /// It counted the lines of one RMID in one slice.
    Looked { lines: u64 },
    /// It was decided, with this reply. Where nothing follows it, it let the tree go.
    Decided { reply: Reply },
    /// One raise, flush, lock, touch or drop followed it in one slice. After the last it let the tree go.
    Followed,
    /// An access read its tag, of this epoch.
    Tagged { epoch: u64 },
    /// It hit or filled a way, or found its tag stale and has to tag again.
    Touched { touched: Touched },
}

/// What came of the step of a thread.
#[derive(Clone, Copy, Debug, PartialEq, Eq)]
pub enum Stepped {
    /// It did this.
    Did { action: Action },
    /// Its next step is to take the tree or to read a tag, and another thread holds the tree. Nothing changed.
    Blocked,
    /// It is of another phase, or its ops are done. Nothing changed.
    Ended,
}
