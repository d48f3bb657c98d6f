//! Tests alone: pair scripts with their reports, worked out by hand, and how the calls of both programs end.
#![tactic(auto)]

#[cfg(test)]
mod tests;
