//! The limit of what is checked.

/// How many bytes an input of `check` may have at most (this project's profile).
pub const MOST_CHECK_BYTES: usize = 1_073_741_824;
