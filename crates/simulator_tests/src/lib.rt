//! Tests alone: scripts with their reports, which were worked out by hand, texts that are no scripts, command lines, and runs of
//! threads.
//!
//! Tests alone: how a call ends where a stream fails at any of its calls, where a script is cut after any of its bytes, at the most
//! accesses of a script, and where changes come between the two steps of an access or beside many accesses; and how the rim of all
//! top calls ends with small programs.
#![tactic(auto)]

#[cfg(test)]
mod faults;
#[cfg(test)]
mod tests;
