//! The words of a line.
ghost use Rattle.std.specs.Prelude.{◌≡◌, ◌<◌, ◌≤◌, [], ◌∷◌, length, MatchOption, IfSome, ◌==◌};
ghost use Rattle.std.specs.List.{position_or_len, list_any};
ghost use Rattle.num_text.specs.Blanks.{is_blank as blank};
ghost use Rattle.line_words.specs.Lines.{words, is_bad, from_word, behind_word, is_comment};

use num_text::{is_blank, leading_blanks};

// How many bytes the first word has, where a text begins with it.
#[tactic(auto, using(crate::proofs::laws::FirstWord::within))]
fn word_len(text: &[u8]) -> usize
    ensures fits { result ≤ length text.now }
    ensures value { result ≡ position_or_len blank text.now }
{
    text.iter().take_while(|b| !is_blank(**b)).count()
}

/// The text from its first word on.
pub fn from_word(text: &[u8]) -> &[u8]
    ensures { result.now ≡ from_word text.now }
{
    &text[leading_blanks(text)..]
}

/// The first word, and what stands after it.
pub fn next_word(text: &[u8]) -> Option<(&[u8], &[u8])>
    ensures words { MatchOption result (words text.now ≡ []) (λ p. (words text.now ≡ p.0.now ∷ words p.1.now) × (length p.1.now < length text.now)) }
    ensures behind { IfSome result (λ p. p.1.now ≡ behind_word text.now) }
{
    let text = from_word(text);
    if text.is_empty() {
        return None;
    }
    let (word, rest) = text.split_at(word_len(text));
    Some((word, rest))
}

/// Whether no word is left.
pub fn no_word(text: &[u8]) -> bool
    ensures { result ≡ (length (words text.now) == 0) }
{
    next_word(text).is_none()
}

/// The one word that is left.
pub fn one_word(text: &[u8]) -> Option<&[u8]>
    ensures { MatchOption result (length (words text.now) ≡ 1 → ⊥) (λ w. words text.now ≡ w.now ∷ []) }
{
    let (word, rest) = next_word(text)?;
    if no_word(rest) { Some(word) } else { None }
}

/// The two words that are left.
pub fn two_words(text: &[u8]) -> Option<(&[u8], &[u8])>
    ensures { MatchOption result (length (words text.now) ≡ 2 → ⊥) (λ p. words text.now ≡ p.0.now ∷ p.1.now ∷ []) }
{
    let (first, rest) = next_word(text)?;
    let (second, rest) = next_word(rest)?;
    if no_word(rest) {
        Some((first, second))
    } else {
        None
    }
}

/// The three words that are left.
pub fn three_words(text: &[u8]) -> Option<(&[u8], &[u8], &[u8])>
    ensures { MatchOption result (length (words text.now) ≡ 3 → ⊥) (λ p. words text.now ≡ p.0.now ∷ p.1.now ∷ p.2.now ∷ []) }
{
    let (first, rest) = next_word(text)?;
    let (second, rest) = next_word(rest)?;
    let (third, rest) = next_word(rest)?;
    if no_word(rest) {
        Some((first, second, third))
    } else {
        None
    }
}

/// The four words that are left.
pub fn four_words(text: &[u8]) -> Option<(&[u8], &[u8], &[u8], &[u8])>
    ensures { MatchOption result (length (words text.now) ≡ 4 → ⊥) (λ p. words text.now ≡ p.0.now ∷ p.1.now ∷ p.2.now ∷ p.3.now ∷ []) }
{
    let (first, rest) = next_word(text)?;
    let (second, rest) = next_word(rest)?;
    let (third, rest) = next_word(rest)?;
    let (fourth, rest) = next_word(rest)?;
    if no_word(rest) {
        Some((first, second, third, fourth))
    } else {
        None
    }
}

/// The five words that are left.
pub fn five_words(text: &[u8]) -> Option<(&[u8], &[u8], &[u8], &[u8], &[u8])>
    ensures { MatchOption result (length (words text.now) ≡ 5 → ⊥) (λ p. words text.now ≡ p.0.now ∷ p.1.now ∷ p.2.now ∷ p.3.now ∷ p.4.now ∷ []) }
{
    let (first, rest) = next_word(text)?;
    let (second, rest) = next_word(rest)?;
    let (third, rest) = next_word(rest)?;
    let (fourth, rest) = next_word(rest)?;
    let (fifth, rest) = next_word(rest)?;
    if no_word(rest) {
        Some((first, second, third, fourth, fifth))
    } else {
        None
    }
}

// Whether this is a byte that no line may have.
fn is_bad(byte: u8) -> bool
    ensures { result ≡ is_bad byte }
{
    byte < b' ' && byte != b'\t' || byte > b'~'
}

/// Whether a text has a byte that no line may have. Each byte is read, so that many are tried at once.
pub fn has_bad_byte(text: &[u8]) -> bool
    ensures { result ≡ list_any is_bad text.now }
{
    let mut bad = false;
    for byte in text {
        bad |= is_bad(*byte);
    }
    bad
}

/// Whether a line is a comment.
pub fn is_comment(text: &[u8]) -> bool
    ensures { result ≡ is_comment text.now }
{
    match from_word(text) {
        [b'#', ..] => true,
        _ => false,
    }
}
