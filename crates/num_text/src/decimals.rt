//! Numbers in decimal.
ghost use Rattle.std.specs.Prelude.{◌≡◌, ◌+◌, ◌/◌, ◌%◌, ◌≤◌, ◌<◌, [], ◌∷◌, ◌++◌, length, decimal};

use rc_base::TextBuf;

// Adds two digits.
#[inline]
fn push_pair(n: u8, out: &mut TextBuf)
    requires two { n < 100 }
    requires room { 2 ≤ out.old.spare }
    ensures bytes { out.new.bytes ≡ out.old.bytes ++ (48 + n / 10) ∷ (48 + n % 10) ∷ [] }
    ensures spare { out.new.spare + 2 ≡ out.old.spare }
{
    out.push(b'0' + n / 10);
    out.push(b'0' + n % 10);
}

// Adds the digits of a number, two at a time.
fn push_digits(n: u64, out: &mut TextBuf)
    requires { length (decimal n) ≤ out.old.spare }
    ensures bytes { out.new.bytes ≡ out.old.bytes ++ decimal n }
    ensures spare { out.new.spare + length (decimal n) ≡ out.old.spare }
{
    if n < 10 {
        out.push(b'0' + n as u8);
    } else if n < 100 {
        push_pair(n as u8, out);
    } else {
        push_digits(n / 100, out);
        push_pair((n % 100) as u8, out);
    }
}

/// Adds a number in decimal, without leading zeros (this project's profile).
#[tactic(auto, using(crate::proofs::Prints::decimal_printed))]
pub fn push_dec(n: u64, out: &mut TextBuf)
    requires { 20 ≤ out.old.spare }
    ensures bytes { out.new.bytes ≡ out.old.bytes ++ decimal n }
    ensures spare { out.new.spare + length (decimal n) ≡ out.old.spare }
{
    push_digits(n, out);
}
