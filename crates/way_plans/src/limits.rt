//! The limit of a curve of a script.

/// How many uses of a domain a group has at most: 16 slices and fewer than 2^32 entries in each.
pub const MOST_USES: u64 = 1 << 36;
