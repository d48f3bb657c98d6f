//! Tests alone: curves of lines and of traces, and the planner's calls with what they write, worked out by hand.
#![tactic(auto)]

#[cfg(test)]
mod tests;
