//! A script's text with other orders.

use crate::lines::is_order_line;
use crate::numbers::push_number;
use line_words::next_word;
use rc_base::{NoMemory, is_text};
use script_ops::next_line;
use std::alloc::Global;

// Whether the first word of a line is `phase`.
fn is_phase_line(line: &[u8]) -> bool {
    match next_word(line) {
        Some((word, _)) => is_text(word, b"phase"),
        None => false,
    }
}

// Adds a line and its newline.
fn push_line(text: &mut Vec<u8>, line: &[u8]) -> Result<(), NoMemory> {
    text.extend_from_slice(line)?;
    text.push(b'\n')?;
    Ok(())
}

// Adds the line of an order; an empty one has none.
fn push_order(alloc: Global, text: &mut Vec<u8>, order: &[u32]) -> Result<(), NoMemory> {
    if order.is_empty() {
        return Ok(());
    }
    text.extend_from_slice(b"order")?;
    for number in order {
        text.push(b' ')?;
        push_number(alloc, text, u64::from(*number))?;
    }
    text.push(b'\n')?;
    Ok(())
}

/// A script's text with these orders, one for each phase, in place of its own.
pub(crate) fn with_orders(
    alloc: Global,
    script: &[u8],
    orders: &[Vec<u32>],
) -> Result<Vec<u8>, NoMemory> {
    let mut text = Vec::new(alloc);
    let mut left = script;
    let mut phase: usize = 0;
    for _ in 0..script.len() {
        let Some((line, rest)) = next_line(left) else {
            break
        };
        if !is_order_line(line) {
            push_line(&mut text, line)?;
        }
        if is_phase_line(line) {
            if let Some(order) = orders.get(phase) {
                push_order(alloc, &mut text, order)?;
            }
            phase = phase.wrapping_add(1);
        }
        left = rest;
    }
    Ok(text)
}
