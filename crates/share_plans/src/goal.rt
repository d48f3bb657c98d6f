//! What a division is to achieve.

/// What is least of a best division.
#[derive(Clone, Copy, Debug, PartialEq, Eq)]
pub enum Goal {
    /// The misses of all programs together, each times the weight of its program.
    Misses,
    /// The worst ratio of misses to uses of a program, times its weight.
    Ratio,
}
