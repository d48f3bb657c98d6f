//! The limits of scripts (this project's profile).

/// What all ops of a script may weigh together at most, by `weight_of`.
pub const MOST_WEIGHT: u64 = 4_000_000;

/// How many tasks a script may declare at most.
pub const MOST_TASKS: u64 = 4_096;

/// How many bytes a path in a script may have at most.
pub const MOST_PATH_BYTES: usize = 2_048;

/// How many bytes the text of a write may have at most, its escapes read.
pub const MOST_TEXT_BYTES: usize = 4_096;

/// How many numbers the order of a phase may have at most.
pub const MOST_ORDER: usize = 4_000_000;

/// How many bytes a script may have at most.
pub const MOST_SCRIPT_BYTES: usize = 67_108_864;

/// How many phases a script may have at most.
pub const MOST_PHASES: usize = 64;

/// How many threads a phase may have at most.
pub const MOST_PHASE_THREADS: usize = 16;

/// How many threads a script may have at most, all phases together.
pub const MOST_THREADS: u32 = 1_024;
