//! A program and its wishes.

use script_ops::Bytes;

/// A program that shares a cache, with what it asks of a division.
#[derive(Drop)]
pub struct Program {
    /// Its name in reports.
    pub name: Bytes,
    /// How much a miss of it counts.
    pub weight: u32,
    /// The fewest ways that it gets.
    pub least: u8,
}
