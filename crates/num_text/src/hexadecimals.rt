//! Numbers in hexadecimal.
ghost use Rattle.std.specs.Prelude.{◌≡◌, ◌+◌, ◌/◌, ◌%◌, ◌≤◌, ◌<◌, [], ◌∷◌, ◌++◌, length, false};
ghost use Rattle.std.specs.Fmt.{digit_glyph};
ghost use Rattle.num_text.specs.Printed.{hexadecimal};

use rc_base::TextBuf;

fn glyph(digit: u8) -> u8
    requires { digit < 16 }
    ensures { result ≡ digit_glyph false digit }
{
    if digit < 10 {
        b'0' + digit
    } else {
        b'a' + (digit - 10)
    }
}

// Adds two digits in hexadecimal.
#[inline]
fn push_pair(n: u8, out: &mut TextBuf)
    requires { 2 ≤ out.old.spare }
    ensures bytes { out.new.bytes ≡ out.old.bytes ++ digit_glyph false (n / 16) ∷ digit_glyph false (n % 16) ∷ [] }
    ensures spare { out.new.spare + 2 ≡ out.old.spare }
{
    out.push(glyph(n / 16));
    out.push(glyph(n % 16));
}

// The digits of a number in hexadecimal, at least `width` of them, two at a time.
fn push_digits(n: u64, width: u8, out: &mut TextBuf)
    requires { length (hexadecimal width n) ≤ out.old.spare }
    ensures bytes { out.new.bytes ≡ out.old.bytes ++ hexadecimal width n }
    ensures spare { out.new.spare + length (hexadecimal width n) ≡ out.old.spare }
{
    if n >= 256 {
        push_digits(n / 256, width.saturating_sub(2), out);
        push_pair((n % 256) as u8, out);
    } else if width > 2 {
        push_digits(0, width - 2, out);
        push_pair(n as u8, out);
    } else if n >= 16 {
        push_pair(n as u8, out);
    } else if width > 1 {
        push_pair(n as u8, out);
    } else {
        out.push(glyph(n as u8));
    }
}

/// Adds a number in hexadecimal, in lower case, with zeros on the left up to `width` digits in
/// all; `width` 0 adds none (this project's profile).
#[tactic(auto, using(crate::proofs::Prints::hexadecimal_printed))]
pub fn push_hex(n: u64, width: u8, out: &mut TextBuf)
    requires width { width ≤ 16 }
    requires room { 16 ≤ out.old.spare }
    ensures bytes { out.new.bytes ≡ out.old.bytes ++ hexadecimal width n }
    ensures spare { out.new.spare + length (hexadecimal width n) ≡ out.old.spare }
{
    push_digits(n, width, out);
}
