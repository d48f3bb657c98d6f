//! The text of a write.
ghost use Rattle.std.specs.Prelude.{◌≡◌, ◌<◌, ◌≤◌, ◌∷◌, length, drop, MatchOption, None, Some};
ghost use Rattle.std.specs.Option.{option_map};
ghost use Rattle.script_lines.specs.Escapes.{unescaped, Unescapes};

use crate::fault::{LineError, LineFault};
use script_ops::Bytes;
use std::alloc::Global;

// The byte that a text means after a backslash, and what stands after it.
#[tactic(auto, unfolding(crate::specs::Escapes::unescaped))]
fn escaped_byte(text: &[u8]) -> Option<(u8, &[u8])>
    ensures { MatchOption result (unescaped (92 ∷ text.now) ≡ None) (λ p. (unescaped (92 ∷ text.now) ≡ option_map (λ bytes. p.0 ∷ bytes) (unescaped p.1.now)) × (length p.1.now ≤ length text.now)) }
{
    let (byte, rest) = text.split_first()?;
    match *byte {
        b'n' => Some((b'\n', rest)),
        b'\\' => Some((b'\\', rest)),
        _ => None,
    }
}

// The byte that a text begins with, its escape read, and what stands after it.
#[tactic(auto, using(crate::proofs::EscapedBytes::plain_bytes))]
fn first_byte(text: &[u8]) -> Option<(u8, &[u8])>
    requires { 0 < length text.now }
    ensures { MatchOption result (unescaped text.now ≡ None) (λ p. (unescaped text.now ≡ option_map (λ bytes. p.0 ∷ bytes) (unescaped p.1.now)) × (length p.1.now < length text.now)) }
{
    let (byte, rest) = text.split_first()?;
    if *byte == b'\\' {
        return escaped_byte(rest);
    }
    Some((*byte, rest))
}

// The text of these bytes.
fn boxed(alloc: Global, bytes: Vec<u8>) -> Result<Bytes, LineError>
    ensures { Unescapes result (Some bytes.items) }
{
    match Bytes::from_vec(alloc, bytes) {
        Ok(text) => Ok(text),
        Err(_) => Err(LineError::NoMemory),
    }
}

/// A text with its escapes read. Its room is taken at once: it has no more bytes than what stands for it.
pub fn unescape(alloc: Global, text: &[u8]) -> Result<Bytes, LineError>
    ensures { Unescapes result (unescaped text.now) }
{
    let mut bytes = Vec::new(alloc);
    match bytes.reserve(text.len()) {
        Ok(()) => {}
        Err(_) => return Err(LineError::NoMemory),
    }
    let mut left = text;
    'bytes: loop {
        if left.is_empty() {
            return boxed(alloc, bytes);
        }
        let Some((byte, rest)) = first_byte(left) else {
            return Err(LineError::Fault(LineFault::BadEscape));
        };
        bytes.push_reserved(byte);
        left = rest;
    }
}

/// What stands after the first byte.
pub fn behind_one(text: &[u8]) -> &[u8]
    ensures { result.now ≡ drop 1 text.now }
{
    match text {
        [_, rest @ ..] => rest,
        [] => text,
    }
}
