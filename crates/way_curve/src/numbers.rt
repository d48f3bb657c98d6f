//! Numbers in a text.
ghost use Rattle.std.specs.Prelude.{◌≡◌, ◌+◌, ◌≤◌, ◌++◌, decimal, length};

use itoa::Buffer;
use num_text::push_dec;
use rc_base::TextBuf;

/// Adds a word and a number.
pub(crate) fn push_number(word: &[u8], n: u64, out: &mut TextBuf)
    requires { length word.now + 20 ≤ out.old.spare }
    ensures bytes { out.new.bytes ≡ out.old.bytes ++ (word.now ++ decimal n) }
    ensures spare { out.old.spare ≤ out.new.spare + (length word.now + 20) }
{
    out.push_all(word);
    push_dec(n, out);
}

/// Adds a word and a number that 64 bits may not hold.
pub(crate) fn push_wide(word: &[u8], n: u128, out: &mut TextBuf)
    requires { length word.now + 40 ≤ out.old.spare }
    ensures bytes { out.new.bytes ≡ out.old.bytes ++ (word.now ++ decimal n) }
    ensures spare { out.old.spare ≤ out.new.spare + (length word.now + 40) }
{
    let mut digits = Buffer::new();
    out.push_all(word);
    out.push_all(digits.format(n).as_bytes());
}
