//! The limits of what a line uses.

/// The bytes of memory: each address is below 2^48 (this project's profile).
pub const MEMORY_BYTES: u64 = 281_474_976_710_656;

/// The most bytes that one line uses (this project's profile).
pub const MOST_SIZE: u64 = 4_096;
