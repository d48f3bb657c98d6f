//! Numbers in a text that grows.

use num_text::push_dec;
use rc_base::{NoMemory, TextBuf};
use std::alloc::Global;

/// Adds the decimal digits of a number.
pub(crate) fn push_number(alloc: Global, text: &mut Vec<u8>, number: u64) -> Result<(), NoMemory> {
    let mut digits = TextBuf::with_room(alloc, 32)?;
    push_dec(number, &mut digits);
    text.extend_from_slice(digits.bytes())?;
    Ok(())
}
