//! Tests alone: journals as text and as values, what a check says of them, and exports and checks with what they write.
//!
//! Tests alone: journals with their order, journals that have none, reports of journals, and how each call ends.
#![tactic(auto)]

#[cfg(test)]
mod replays;
#[cfg(test)]
mod tests;
