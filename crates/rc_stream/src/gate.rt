//! Points at which the workers of a run can be held.

/// A point that a worker comes to with each of its ops. (This project's profile.)
#[derive(Clone, Copy, Debug, PartialEq, Eq)]
pub enum Point {
    /// Before the op, with no lock held.
    BeforeOp,
    /// Just before an access touches its slice, with the lock of that slice held and no other.
    InSlice,
    /// After the op, with no lock held.
    AfterOp,
}

/// Is called by the workers of a run at each point that they come to. So a test can hold a worker there until another has come
/// further. What it does says nothing of the run.
pub trait Gate: Sync {
    /// The worker of this thread, numbered from 0 through the whole script, has come to this point.
    fn at(&self, point: Point, thread: u32);
}

/// A gate that holds nobody.
#[derive(Clone, Copy, Debug, PartialEq, Eq)]
pub struct OpenGate;

impl Gate for OpenGate {
    fn at(&self, _point: Point, _thread: u32) {}
}
