//! Cutting a text at a separator.
ghost use Rattle.std.specs.Prelude.{◌≡◌, ◌<◌, ◌==◌, length, false, true, MatchOption, position};
ghost use Rattle.std.specs.List.{before_first, after_first, list_any};

use memchr::memchr;

// Where such a byte first stands.
fn place(text: &[u8], byte: u8) -> Option<usize>
    ensures { result ≡ position (λ b. b == byte) text.now }
{
    memchr(byte, text)
}

/// What stands before the first such byte, and what stands after it; the whole text and None
/// where there is none.
#[tactic(auto, using(lists::proofs::Cuts::positions))]
pub fn cut(text: &[u8], byte: u8) -> (&[u8], Option<&[u8]>)
    ensures front { result.0.now ≡ before_first (λ b. b == byte) text.now }
    ensures back { MatchOption result.1
        (list_any (λ b. b == byte) text.now ≡ false)
        (λ rest. (list_any (λ b. b == byte) text.now ≡ true)
        × (rest.now ≡ after_first (λ b. b == byte) text.now)
        × (length rest.now < length text.now)) }
{
    match place(text, byte) {
        None => (text, None),
        Some(i) => (&text[..i], Some(&text[i + 1..])),
    }
}
