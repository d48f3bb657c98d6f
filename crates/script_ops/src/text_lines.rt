//! The lines of a text.
ghost use Rattle.std.specs.Prelude.{◌≡◌, ◌<◌, [], ◌∷◌, length, MatchOption};
ghost use Rattle.std.specs.Str.Lines.{lines, strip_carriage_return};

use num_text::cut;

// A line without a carriage return at its end.
fn strip(line: &[u8]) -> &[u8]
    ensures { result.now ≡ strip_carriage_return line.now }
{
    match line {
        [rest @ .., b'\r'] => rest,
        _ => line,
    }
}

/// The first line of a text without its newline and a carriage return before that, and what stands after it; None where
/// there is no line. The last line may lack its newline.
pub fn next_line(text: &[u8]) -> Option<(&[u8], &[u8])>
    ensures { MatchOption result (lines text.now ≡ []) (λ p. (lines text.now ≡ p.0.now ∷ lines p.1.now) × (length p.1.now < length text.now)) }
{
    let (line, rest) = cut(text, b'\n');
    match rest {
        Some(rest) => Some((strip(line), rest)),
        None => last_line(text),
    }
}

// The line that has no newline.
fn last_line(text: &[u8]) -> Option<(&[u8], &[u8])>
    ensures { MatchOption result (text.now ≡ []) (λ p. (p.0.now ≡ text.now) × (p.1.now ≡ []) × (0 < length text.now)) }
{
    if text.is_empty() {
        None
    } else {
        Some((text, &text[text.len()..]))
    }
}
