//! The words of a line.
#![tactic(auto)]

pub mod words;

pub use words::{
    five_words, four_words, from_word, has_bad_byte, is_comment, next_word, no_word, one_word,
    three_words, two_words,
};
