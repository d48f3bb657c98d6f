//! The limits of the caches that are asked about.

/// The most sets of a cache, sixteen times those of a script's machine: real caches have as many as need be, and no power of two
/// of them (this project's profile).
pub const MOST_SETS: u64 = 1_048_576;

/// The most ways of a cache, as of a script's machine (this project's profile).
pub const MOST_WAYS: u64 = 32;
