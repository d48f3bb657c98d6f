//! A script with its weight.

use script_ops::Script;

/// A script, and what all its ops weigh together. No list of its journals is longer than that (this project's profile).
#[derive(Clone, Copy)]
pub struct WeighedScript<'a> {
    /// The script.
    pub script: &'a Script,
    /// What its ops weigh together.
    pub weight: u64,
}
