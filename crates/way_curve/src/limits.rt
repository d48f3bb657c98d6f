//! The limits of a trace.

/// The most bytes of a line, without its newline and a carriage return before that (this project's profile).
pub const MOST_LINE_BYTES: usize = 65_536;

/// The most bytes of a trace, 2^57 (this project's profile): so the count of its uses, 65 a byte at most, is below 2^64.
pub const MOST_TRACE_BYTES: u64 = 144_115_188_075_855_872;
