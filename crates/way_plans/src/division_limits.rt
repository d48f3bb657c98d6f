//! The limits of a division.

/// How many ways a cache has at most (this project's profile).
pub const MOST_WAYS: usize = 32;

/// How many groups a division has at most (this project's profile).
pub const MOST_GROUPS: usize = 64;

/// How many misses a group has at most (this project's profile).
pub const MOST_MISSES: u64 = 1 << 48;

/// How many states the table of all orders has at most (this project's profile). A state says how many ways are left of each run of
/// free ways, so free ways in five runs or fewer have no more.
pub const MOST_STATES: usize = 16_384;
