//! Room for what is written.

/// The most bytes of a report of 32 ways with estimates and first uses (this project's profile).
pub const MOST_REPORT_BYTES: usize = 15_800;

/// The most bytes of the line that says that counts are of a sample (this project's profile).
pub const MOST_SAMPLE_BYTES: usize = 72;

/// The most bytes of the lines that say which levels there are (this project's profile).
pub const MOST_LEVELS_BYTES: usize = 120;

/// The most bytes of the line that refuses a trace (this project's profile).
pub const MOST_REFUSAL_BYTES: usize = 48;
