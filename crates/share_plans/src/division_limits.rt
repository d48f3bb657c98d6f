//! The limits of a division.

/// How many ways a cache has at most (this project's profile).
pub const MOST_WAYS: usize = 32;

/// How many programs share a cache at most: so each can have a way (this project's profile).
pub const MOST_PROGRAMS: usize = 32;

/// How much a miss of a program counts at most (this project's profile).
pub const MOST_WEIGHT: u32 = 1_000;

/// How many uses a program has at most: 65 for each of 2^42 bytes, and 65 more, since the last line of a stream may lack its newline
/// (this project's profile). So all weighted misses fit 64 bits.
pub const MOST_USES: u64 = 285_873_023_221_825;
