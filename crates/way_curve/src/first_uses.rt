//! How many uses are the first of their line.

/// How many uses are the first of their line, and so how many different lines they use.
#[derive(Clone, Copy, Debug, PartialEq, Eq)]
pub struct FirstUses {
    /// Of all uses. A line that is used as data and as code counts once.
    pub of_all: u64,
    /// Of the uses of data alone.
    pub of_data: u64,
    /// Of the uses of code alone.
    pub of_code: u64,
}
