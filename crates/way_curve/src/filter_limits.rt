//! Room for what is left of a line of a trace.

/// The most bytes that what levels leave of one line of a trace takes, as a trace: 130 uses, each in 23 bytes or fewer (this project's
/// profile).
pub const MOST_FILTERED_BYTES: usize = 2_990;
