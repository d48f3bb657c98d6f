//! Reading a line.
ghost use Rattle.std.specs.Prelude.{◌≡◌, ◌<◌, ◌≤◌, IfOk, IfSome, Some, None, MatchResult};
ghost use Rattle.line_words.specs.Lines.{words};
ghost use Rattle.lackey_text.specs.declared.limits.TheConstants.{MOST_SIZE};
ghost use Rattle.lackey_text.specs.Lines.{IsInMemory, addr_of, is_message, kind_of as kind_named, line_of, said_by, size_of, use_of};

use crate::limits::{MEMORY_BYTES, MOST_SIZE};
use crate::line::{BadLine, LackeyKind, LackeyLine};
use line_words::{next_word, two_words};
use num_text::{cut, read_dec, read_digits};
use rc_base::is_text;

// The kind that a word names.
fn kind_of(word: &[u8]) -> Option<LackeyKind>
    ensures { result ≡ kind_named word.now }
{
    if is_text(word, b"I") {
        Some(LackeyKind::Code)
    } else if is_text(word, b"L") {
        Some(LackeyKind::Load)
    } else if is_text(word, b"S") {
        Some(LackeyKind::Store)
    } else if is_text(word, b"M") {
        Some(LackeyKind::Modify)
    } else {
        None
    }
}

// The address that hexadecimal digits of either case are.
fn addr_of(text: &[u8]) -> Option<u64>
    ensures { result ≡ addr_of text.now }
{
    match read_digits(text, 16) {
        Some(n) if n < MEMORY_BYTES => Some(n),
        _ => None,
    }
}

// The size that decimal digits are.
fn size_of(text: &[u8]) -> Option<u32>
    ensures said { result ≡ size_of text.now }
    ensures range { IfSome result (λ n. (0 < n) × (n ≤ MOST_SIZE)) }
{
    match read_dec(text) {
        Some(n) if 1 <= n && n <= MOST_SIZE => Some(n as u32),
        _ => None,
    }
}

// The use that a kind and a word `ADDR,SIZE` are.
fn use_of(kind: LackeyKind, word: &[u8]) -> Option<LackeyLine>
    ensures said { result ≡ use_of kind word.now }
    ensures in_memory { IfSome result IsInMemory }
{
    let (addr, size) = cut(word, b',');
    let Some(size) = size else {
        return None;
    };
    let Some(addr) = addr_of(addr) else {
        return None;
    };
    match size_of(size) {
        Some(size) if addr + u64::from(size) <= MEMORY_BYTES => {
            Some(LackeyLine::Use { kind, addr, size })
        }
        _ => None,
    }
}

// Whether Valgrind says it of itself.
fn is_message(line: &[u8]) -> bool
    ensures { result ≡ is_message line.now }
{
    matches!(line, [b'=', b'=', ..])
}

// What the words of a line say.
fn said_by(line: &[u8]) -> Option<LackeyLine>
    ensures said { result ≡ said_by (words line.now) }
    ensures in_memory { IfSome result IsInMemory }
{
    if next_word(line).is_none() {
        return Some(LackeyLine::Skip);
    }
    let Some((kind, word)) = two_words(line) else {
        return None;
    };
    match kind_of(kind) {
        Some(kind) => use_of(kind, word),
        None => None,
    }
}

/// What a line says, or BadLine exactly where it is none of a trace.
pub fn read_line(line: &[u8]) -> Result<LackeyLine, BadLine>
    ensures said { MatchResult result (λ said. line_of line.now ≡ Some said) (λ bad. line_of line.now ≡ None) }
    ensures in_memory { IfOk result IsInMemory }
{
    if is_message(line) {
        return Ok(LackeyLine::Skip);
    }
    match said_by(line) {
        Some(said) => Ok(said),
        None => Err(BadLine),
    }
}
