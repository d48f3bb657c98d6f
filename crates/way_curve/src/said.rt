//! What a line of a trace says that has a greatest length.
ghost use Rattle.std.specs.Prelude.{◌≡◌, ◌+◌, ◌*◌, ◌≤◌, IfSome, length};
ghost use Rattle.std.specs.Str.Lines.{strip_carriage_return};
ghost use Rattle.lackey_text.specs.Lines.{IsInMemory};
ghost use Rattle.lackey_text.specs.Uses.{uses_of};
ghost use Rattle.way_curve.specs.TraceTexts.{said_of as said_in};

use crate::limits::MOST_LINE_BYTES;
use lackey_text::{LackeyLine, read_line};

// A line without a carriage return at its end.
fn strip(line: &[u8]) -> &[u8]
    ensures stripped { result.now ≡ strip_carriage_return line.now }
    ensures shorter { length result.now ≤ length line.now }
{
    match line {
        [rest @ .., b'\r'] => rest,
        _ => line,
    }
}

/// What a line says; None where it is too long or none of a trace.
#[tactic(auto, unfolding(crate::specs::TraceTexts::said_of))]
pub(crate) fn said_of(line: &[u8]) -> Option<LackeyLine>
    ensures said { result ≡ said_in line.now }
    ensures in_memory { IfSome result IsInMemory }
    ensures few { IfSome result (λ said. length (uses_of said) ≤ 65 * (length line.now + 1)) }
{
    if line.len() > MOST_LINE_BYTES {
        return None;
    }
    match read_line(line) {
        Ok(said) => Some(said),
        Err(_) => None,
    }
}

/// What a line says that ends with a newline.
pub(crate) fn said_of_ended(line: &[u8]) -> Option<LackeyLine>
    ensures said { result ≡ said_in (strip_carriage_return line.now) }
    ensures in_memory { IfSome result IsInMemory }
    ensures few { IfSome result (λ said. length (uses_of said) ≤ 65 * (length line.now + 1)) }
{
    said_of(strip(line))
}
