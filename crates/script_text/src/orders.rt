//! The numbers of an order.
ghost use Rattle.std.specs.Prelude.{◌≡◌, ◌^◌, IfSome, []};
ghost use Rattle.num_text.specs.Numbers.{dec_of, below};
ghost use Rattle.line_words.specs.Lines.{words};
ghost use Rattle.script_lines.specs.Arguments.{order_of, Orders};
ghost use Rattle.script_text.specs.Usual.{BeginsWithOrderNumber, TakesOrderNumber};

use crate::usual::number_before;
use line_words::{from_word, next_word, no_word};
use num_text::read_dec;
use script_lines::{LineError, LineFault};

fn order_number(word: &[u8]) -> Option<u32>
    ensures { result ≡ below (2 ^ 32) (dec_of word.now) }
{
    match read_dec(word) {
        Some(n) if n < 1 << 32 => Some(n as u32),
        _ => None,
    }
}

// The number that a text begins with, and what stands after it and a space. None tells nothing of the text.
#[tactic(auto, using(crate::proofs::OrderNumbers::numbers))]
fn usual_number(text: &[u8]) -> Option<(u32, &[u8])>
    ensures { IfSome result (λ p. BeginsWithOrderNumber text.now p.0 p.1.now) }
{
    match number_before(text, b' ') {
        Some((n, rest)) if n < 1 << 32 => Some((n as u32, rest)),
        _ => None,
    }
}

// The number that the first word is, whatever stands around it, and the text from the next word on.
fn any_number(text: &[u8]) -> Result<Option<(u32, &[u8])>, LineFault>
    ensures { TakesOrderNumber result text.now }
{
    let Some((word, rest)) = next_word(text) else {
        return Ok(None);
    };
    match order_number(word) {
        Some(number) => Ok(Some((number, from_word(rest)))),
        None => Err(LineFault::BadArgument),
    }
}

// The number that the first word is, and what stands after it; None where no word is left.
fn next_number(text: &[u8]) -> Result<Option<(u32, &[u8])>, LineFault>
    ensures { TakesOrderNumber result text.now }
{
    match usual_number(text) {
        Some(next) => Ok(Some(next)),
        None => any_number(text),
    }
}

/// One number or more, in a list that was empty.
#[tactic(auto, using(crate::proofs::OrderNumbers::numbers))]
pub fn read_order(order: &mut Vec<u32>, text: &[u8]) -> Result<(), LineError>
    requires { order.old.items ≡ [] }
    ensures { Orders result order.new.items (order_of (words text.now)) }
{
    if no_word(text) {
        return Err(LineError::Fault(LineFault::BadArgument));
    }
    let mut left = text;
    'numbers: loop {
        let (number, rest) = match next_number(left) {
            Ok(Some(next)) => next,
            Ok(None) => return Ok(()),
            Err(fault) => return Err(LineError::Fault(fault)),
        };
        order.push(number)?;
        left = rest;
    }
}
