//! Definitions and lemmas on lists, numbers and sets of bits that every crate may cite.
#![tactic(auto)]
