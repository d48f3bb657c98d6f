//! The numbers that texts spell. Leading zeros are allowed, signs and blanks are not.
ghost use Rattle.std.specs.Prelude.{◌≡◌, ◌^◌, ◌≤◌, is_some, length};
ghost use Rattle.std.specs.List.{list_all};
ghost use Rattle.std.specs.Char.{is_digit};
ghost use Rattle.num_text.specs.declared.reading.TheConstants.{FEW_DIGITS};
ghost use Rattle.num_text.specs.Numbers.{number_of, dec_of, hex_of, num_of, without_prefix, below, capped};

// The most digits that spell a number below 2^64 in every base up to 16, whatever they are.
const FEW_DIGITS: usize = 16;

// The number that a few digits of a base spell. No sum has to be asked whether it fits.
#[inline(always)]
fn few_digits(text: &[u8], base: u32) -> Option<u64>
    requires low { 2 ≤ base }
    requires high { base ≤ 16 }
    requires few { length text.now ≤ FEW_DIGITS }
    ensures { result ≡ below (2 ^ 64) (number_of base text.now) }
{
    if text.is_empty() {
        return None;
    }
    let mut n: u64 = 0;
    for b in text {
        let Some(digit) = char::from(*b).to_digit(base) else {
            return None;
        };
        n = n * u64::from(base) + u64::from(digit);
    }
    Some(n)
}

// The number that any digits of a base spell.
fn many_digits(text: &[u8], base: u32) -> Option<u64>
    requires low { 2 ≤ base }
    requires high { base ≤ 16 }
    ensures { result ≡ below (2 ^ 64) (number_of base text.now) }
{
    if text.is_empty() {
        return None;
    }
    let mut n: u64 = 0;
    for b in text {
        let Some(digit) = char::from(*b).to_digit(base) else {
            return None;
        };
        let Some(shifted) = n.checked_mul(u64::from(base)) else {
            return None;
        };
        let Some(sum) = shifted.checked_add(u64::from(digit)) else {
            return None;
        };
        n = sum;
    }
    Some(n)
}

/// The number that one digit or more of a base, of either case, spell. None where the text is
/// empty, has another byte, or the number is above 2^64 - 1.
#[inline]
pub fn read_digits(text: &[u8], base: u32) -> Option<u64>
    requires low { 2 ≤ base }
    requires high { base ≤ 16 }
    ensures { result ≡ below (2 ^ 64) (number_of base text.now) }
{
    if text.len() <= FEW_DIGITS {
        few_digits(text, base)
    } else {
        many_digits(text, base)
    }
}

fn all_digits(text: &[u8]) -> bool
    ensures { result ≡ list_all (λ b. is_digit b 10) text.now }
{
    text.iter().all(|b| char::from(*b).is_digit(10))
}

#[tactic(auto, using(crate::proofs::Numerals::some_number))]
fn is_dec(text: &[u8]) -> bool
    ensures { result ≡ is_some (dec_of text.now) }
{
    !text.is_empty() && all_digits(text)
}

/// The text after an optional `0x` or `0X`.
pub fn after_prefix(text: &[u8]) -> &[u8]
    ensures { result.now ≡ without_prefix text.now }
{
    match text {
        [b'0', b'x' | b'X', rest @ ..] => rest,
        _ => text,
    }
}

/// The decimal number that a text spells. None where the text is empty, has a byte that is no
/// decimal digit, or spells a number above 2^64 - 1 (this project's profile).
pub fn read_dec(text: &[u8]) -> Option<u64>
    ensures { result ≡ below (2 ^ 64) (dec_of text.now) }
{
    read_digits(text, 10)
}

/// The decimal number that a text spells, and 2^64 - 1 where it is above that. None where the
/// text is empty or has a byte that is no decimal digit (this project's profile).
#[tactic(auto, using(crate::proofs::Numerals::cappings))]
pub fn read_dec_capped(text: &[u8]) -> Option<u64>
    ensures { result ≡ capped (dec_of text.now) }
{
    if !is_dec(text) {
        return None;
    }
    match read_digits(text, 10) {
        Some(n) => Some(n),
        None => Some(u64::MAX),
    }
}

/// The hexadecimal number that a text spells, in digits of either case, after an optional `0x`
/// or `0X`. None where no digit is left, another byte stands there, or the number is above
/// 2^64 - 1 (this project's profile).
pub fn read_hex(text: &[u8]) -> Option<u64>
    ensures { result ≡ below (2 ^ 64) (hex_of text.now) }
{
    read_digits(after_prefix(text), 16)
}

/// The number that a text spells: hexadecimal after `0x` or `0X`, decimal elsewhere. None as
/// for `read_hex` and `read_dec` (this project's profile).
pub fn read_num(text: &[u8]) -> Option<u64>
    ensures { result ≡ below (2 ^ 64) (num_of text.now) }
{
    match text {
        [b'0', b'x' | b'X', rest @ ..] => read_digits(rest, 16),
        _ => read_digits(text, 10),
    }
}
