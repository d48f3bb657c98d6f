//! The lines of a script's text but for those that say an order of steps.
ghost use Rattle.std.specs.Prelude.{◌≡◌, ◌<◌, ◌∷◌, [], IsTrue, MatchOption, length};
ghost use Rattle.replay_top.specs.Lines.{is_order_line as is_order, other_lines};

use line_words::next_word;
use rc_base::is_text;
use script_ops::next_line;

/// Whether the first word of a line is `order`.
pub(crate) fn is_order_line(line: &[u8]) -> bool
    ensures { result ≡ is_order line.now }
{
    match next_word(line) {
        Some((word, _)) => is_text(word, b"order"),
        None => false,
    }
}

// The first line of a text that says no order, and what stands after it; None where there is no such line.
fn next_other(text: &[u8]) -> Option<(&[u8], &[u8])>
    ensures { MatchOption result (other_lines text.now ≡ []) (λ p. (other_lines text.now ≡ p.0.now ∷ other_lines p.1.now) × (length p.1.now < length text.now)) }
{
    let mut left = text;
    'lines: loop {
        match next_line(left) {
            Some((line, rest)) => {
                if !is_order_line(line) {
                    return Some((line, rest));
                }
                left = rest;
            }
            None => return None,
        }
    }
}

/// Whether two texts have the same lines, but for those that say an order.
pub(crate) fn has_same_lines(text: &[u8], other: &[u8]) -> bool
    ensures { IsTrue result → other_lines text.now ≡ other_lines other.now }
{
    let mut left = text;
    let mut right = other;
    'lines: loop {
        let Some((line, rest)) = next_other(left) else {
            return next_other(right).is_none();
        };
        let Some((there, behind)) = next_other(right) else {
            return false;
        };
        if !is_text(line, there) {
            return false;
        }
        left = rest;
        right = behind;
    }
}
