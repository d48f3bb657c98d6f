//! Numbers, blanks and separators in the texts of files and scripts.
#![tactic(auto)]

pub mod blanks;
pub mod cutting;
pub mod decimals;
pub mod growing_text;
pub mod hexadecimals;
pub mod reading;
pub mod theorems;

pub use blanks::{is_blank, leading_blanks, trim};
pub use cutting::cut;
pub use decimals::push_dec;
pub use growing_text::GrowingText;
pub use hexadecimals::push_hex;
pub use reading::{after_prefix, read_dec, read_dec_capped, read_digits, read_hex, read_num};
