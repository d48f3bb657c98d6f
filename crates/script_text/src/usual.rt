//! Access lines in their usual form, read in one pass over their bytes.
ghost use Rattle.std.specs.Prelude.{◌≡◌, ◌+◌, ◌*◌, ◌<◌, ◌++◌, IfSome, false, codes};
ghost use Rattle.std.specs.Char.{digit_value};
ghost use Rattle.machine.specs.Maps.{parameters_of};
ghost use Rattle.script_text.specs.Usual.{BeginsWithNumber, BeginsWithAccess, use_by};

use machine::Machine;
use script_lines::arguments::Use;

// The greatest number to which any digit can be appended.
const MOST_BEFORE_A_DIGIT: u64 = u64::MAX / 10 - 1;

// The decimal digit that a byte is. None tells nothing of the byte.
fn digit_of(byte: u8) -> Option<u64>
    ensures { IfSome result (λ d. (d ≡ digit_value byte) × (d < 10)) }
{
    let digit = char::from(byte).to_digit(10)?;
    Some(u64::from(digit))
}

// A number with one digit more.
fn with_digit(n: u64, digit: u64) -> Option<u64>
    requires { digit < 10 }
    ensures { IfSome result (λ m. m ≡ n * 10 + digit) }
{
    if n > MOST_BEFORE_A_DIGIT {
        return None;
    }
    Some(n * 10 + digit)
}

/// The number that a text begins with, and what stands after the byte that ends it. None tells nothing of the text.
pub fn number_before(text: &[u8], end: u8) -> Option<(u64, &[u8])>
    ensures { IfSome result (λ p. BeginsWithNumber text.now end p.0 p.1.now) }
{
    let [first, rest @ ..] = text else {
        return None;
    };
    let mut n = digit_of(*first)?;
    let mut left = rest;
    'digits: loop {
        let [byte, rest @ ..] = left else {
            return None;
        };
        let Some(digit) = digit_of(*byte) else {
            if *byte == end {
                return Some((n, rest));
            }
            return None;
        };
        n = with_digit(n, digit)?;
        left = rest;
    }
}

// What stands after the word that an access line begins with, and its space.
fn after_kind(text: &[u8]) -> Option<&[u8]>
    ensures { IfSome result (λ rest. text.now ≡ codes "access " ++ rest.now) }
{
    match text {
        [b'a', b'c', b'c', b'e', b's', b's', b' ', rest @ ..] => Some(rest),
        _ => None,
    }
}

/// The task, the CPU and the address of an access line that a text begins with, and what stands after the line. None tells
/// nothing of the text.
pub fn usual_access(text: &[u8]) -> Option<(u64, u64, u64, &[u8])>
    ensures { IfSome result (λ p. BeginsWithAccess text.now p.0 p.1 p.2 p.3.now) }
{
    let rest = after_kind(text)?;
    let (task, rest) = number_before(rest, b' ')?;
    let (cpu, rest) = number_before(rest, b' ')?;
    let (addr, rest) = number_before(rest, b'\n')?;
    Some((task, cpu, addr, rest))
}

/// The use of an access line of these numbers, where the machine has the CPU and the address is below 2^48.
pub fn usual_use(m: &Machine, task: u64, cpu: u64, addr: u64) -> Option<Use>
    ensures { result ≡ use_by (parameters_of m.now) task cpu addr }
{
    if cpu < u64::from(m.cpus) && addr < 1 << 48 {
        let cpu = cpu as u8;
        let at = addr;
        Some(Use { task, cpu, at })
    } else {
        None
    }
}
