//! The first line of a text.
ghost use Rattle.std.specs.Prelude.{◌≡◌, ◌<◌, ◌∷◌, ◌++◌, IfSome, length};
ghost use Rattle.way_curve.specs.Reading.{IsOpen};

use num_text::cut;

/// What stands before the first newline of a text, and what stands after it; None where there is none.
pub(crate) fn split_line(text: &[u8]) -> Option<(&[u8], &[u8])>
    ensures text { IfSome result (λ r. text.now ≡ r.0.now ++ 10 ∷ r.1.now) }
    ensures is_open { IfSome result (λ r. IsOpen r.0.now) }
{
    let (line, rest) = cut(text, b'\n');
    match rest {
        Some(rest) => Some((line, rest)),
        None => None,
    }
}
