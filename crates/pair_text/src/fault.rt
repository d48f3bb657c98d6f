//! What is wrong with a pair script.

use script_lines::LineFault;

/// What is wrong with a line.
#[derive(Clone, Copy, Debug, PartialEq, Eq)]
pub enum PairFault {
    /// A fault that any script can have.
    Line(LineFault),
    /// A line of a trace has no reading, or a trace has no end.
    BadTrace,
}

/// Why a pair script was not read.
#[derive(Clone, Copy, Debug, PartialEq, Eq)]
pub enum PairError {
    /// The text is no pair script of its kind: the first bad line, counted from 1, and its first fault.
    Bad { line: u32, what: PairFault },
    /// Out of memory.
    NoMemory,
}
