//! Tests alone, with the answers worked out by hand: texts that are read and printed, and streams; rules of the tree and calls of a
//! slice that no script plays; steps and journals of runs, what is counted of them, and windows.
#![tactic(auto)]

#[cfg(test)]
mod run_tests;
#[cfg(test)]
mod text_tests;
#[cfg(test)]
mod tree_tests;
