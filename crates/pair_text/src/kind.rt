//! The kinds of pair scripts, the kinds of their lines, and where each may stand.

/// The two kinds of pair scripts (this project's profile).
#[derive(Clone, Copy, Debug, PartialEq, Eq)]
pub enum PairKind {
    /// Data and code masks of the same caches (Intel SDM volume 3, code and data prioritization).
    Cdp,
    /// Masks of an L2 and of an L3.
    Levels,
}

/// Where a line stands.
#[derive(Clone, Copy, Debug, PartialEq, Eq)]
pub enum Place {
    /// Before the machine line.
    Start,
    /// Directly after it.
    Head,
    /// After that.
    Body,
    /// In a trace of a task on a CPU.
    Trace { task: u32, cpu: u8 },
}

/// What kinds of line there are, each named by its first word.
#[derive(Clone, Copy, Debug, PartialEq, Eq)]
pub enum Kind {
    Machine,
    Tasks,
    Mkdir,
    Rmdir,
    Write,
    Read,
    Flush,
    Trace,
    Access,
    Sweep,
}
