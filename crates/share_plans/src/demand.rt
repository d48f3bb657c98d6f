//! What a program asks of a division.

use crate::division_limits::MOST_WAYS;

/// What a program asks of a division, and what it would miss.
#[derive(Clone, Copy, Debug, PartialEq, Eq)]
pub struct Demand {
    /// How much a miss of the program counts.
    pub weight: u32,
    /// The fewest ways that it gets.
    pub least: u8,
    /// Its misses with each number of ways from 0 to 32. With no ways every use misses.
    pub misses: [u64; MOST_WAYS + 1],
}
