//! Numbers taken from the front of a text, one after the other. They are in decimal without leading zeros, each after one space.
ghost use Rattle.std.specs.Prelude.{◌≡◌, ℕ, ◌^◌, ◌<◌, ◌≤◌, [], ◌∷◌, List, length, decimal, MatchOption};
ghost use Rattle.std.specs.List.{position_or_len};
ghost use Rattle.journal_text.specs.Taken.{IsNotJust, IsSplit, Takes, TakesNone, is_space};

use num_text::read_dec;

// The number whose decimal text this is.
fn number(text: &[u8]) -> Option<u64>
    ensures { MatchOption result ((n : ℕ) → n < 2 ^ 64 → decimal n ≡ text.now → ⊥) (λ n. decimal n ≡ text.now) }
{
    if text.len() > 1 && text[0] == b'0' {
        return None;
    }
    read_dec(text)
}

// How many bytes stand before the first space.
fn word_len(text: &[u8]) -> usize
    ensures fits { result ≤ length text.now }
    ensures value { result ≡ position_or_len is_space text.now }
{
    text.iter().take_while(|b| **b != b' ').count()
}

/// What stands before the first space, and the rest.
pub(crate) fn first_word(text: &[u8]) -> (&[u8], &[u8])
    ensures { IsSplit result.0.now result.1.now text.now }
{
    text.split_at(word_len(text))
}

// What follows the space that a text begins with.
fn after_space(text: &[u8]) -> Option<&[u8]>
    ensures { MatchOption result ((rest : List ℕ) → text.now ≡ 32 ∷ rest → ⊥) (λ rest. text.now ≡ 32 ∷ rest.now) }
{
    match text {
        [b' ', rest @ ..] => Some(rest),
        _ => None,
    }
}

/// The number that a text begins with after a space, and what follows it; None where no decimal text of a number below 2^64 stands
/// there.
pub(crate) fn take_number(text: &[u8]) -> Option<(u64, &[u8])>
    ensures { MatchOption result (TakesNone 1 text.now) (λ p. Takes (p.0 ∷ []) p.1.now text.now) }
{
    let after = after_space(text)?;
    let (digits, rest) = first_word(after);
    let n = number(digits)?;
    Some((n, rest))
}

/// The two numbers that a text begins with, and what follows them; None where there are fewer.
pub(crate) fn take_two(text: &[u8]) -> Option<(u64, u64, &[u8])>
    ensures { MatchOption result (TakesNone 2 text.now) (λ p. Takes (p.0 ∷ p.1 ∷ []) p.2.now text.now) }
{
    let (first, rest) = take_number(text)?;
    let (second, rest) = take_number(rest)?;
    Some((first, second, rest))
}

/// The three numbers that a text begins with, and what follows them; None where there are fewer.
pub(crate) fn take_three(text: &[u8]) -> Option<(u64, u64, u64, &[u8])>
    ensures { MatchOption result (TakesNone 3 text.now) (λ p. Takes (p.0 ∷ p.1 ∷ p.2 ∷ []) p.3.now text.now) }
{
    let (first, rest) = take_number(text)?;
    let (second, third, rest) = take_two(rest)?;
    Some((first, second, third, rest))
}

/// The number that a text is; None where it is anything else.
pub(crate) fn only_number(text: &[u8]) -> Option<u64>
    ensures { MatchOption result (IsNotJust 1 text.now) (λ n. Takes (n ∷ []) [] text.now) }
{
    let (n, rest) = take_number(text)?;
    if rest.is_empty() { Some(n) } else { None }
}

/// The two numbers that a text is; None where it is anything else.
pub(crate) fn only_two(text: &[u8]) -> Option<(u64, u64)>
    ensures { MatchOption result (IsNotJust 2 text.now) (λ p. Takes (p.0 ∷ p.1 ∷ []) [] text.now) }
{
    let (first, rest) = take_number(text)?;
    let second = only_number(rest)?;
    Some((first, second))
}

/// The three numbers that a text is; None where it is anything else.
pub(crate) fn only_three(text: &[u8]) -> Option<(u64, u64, u64)>
    ensures { MatchOption result (IsNotJust 3 text.now) (λ p. Takes (p.0 ∷ p.1 ∷ p.2 ∷ []) [] text.now) }
{
    let (first, rest) = take_number(text)?;
    let (second, third) = only_two(rest)?;
    Some((first, second, third))
}
