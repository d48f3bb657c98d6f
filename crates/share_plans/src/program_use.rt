//! A use of a line by a program.

/// The use of one line of memory by a program.
#[derive(Clone, Copy, Debug, PartialEq, Eq)]
pub struct ProgramUse {
    /// The program, numbered from 0.
    pub program: u8,
    /// The number of the line: the address of its first byte, divided by 64.
    pub line: u64,
    /// Whether it is used as code, and not as data.
    pub code: bool,
}
