//! The division of an input into a script and journals.
ghost use Rattle.std.specs.Prelude.{◌≡◌, ◌≤◌, ◌^◌, IfSome, length};
ghost use Rattle.check_parts.specs.Division.{after_line as division_after, division_of, journal_part as journal_bytes, script_part as script_bytes};
ghost use Rattle.journal_text.specs.Lines.{first_line};

use num_text::cut;
use rc_base::is_text;

// The first line of every journal text.
const FIRST_LINE: &str = "journal 1";

/// What stands before the journals of an input.
#[derive(Clone, Copy, Debug, PartialEq, Eq)]
pub struct Division {
    /// How many lines.
    pub lines: u32,
    /// How many bytes.
    pub bytes: usize,
}

/// What stands before the first line of an input that is the first of a journal text, and None where there is no such line. The last
/// line of the input may lack its newline. (This project's profile.)
pub fn divide(bytes: &[u8]) -> Option<Division>
    requires { length bytes.now ≤ 2 ^ 31 }
    ensures division { result ≡ division_of bytes.now }
    ensures within { IfSome result (λ d. d.bytes ≤ length bytes.now) }
    ensures few { IfSome result (λ d. d.lines ≤ d.bytes) }
{
    let mut left = bytes;
    let mut before = Division { lines: 0, bytes: 0 };
    'lines: loop {
        let (line, rest) = cut(left, b'\n');
        if is_text(line, FIRST_LINE.as_bytes()) {
            return Some(before);
        }
        let Some(rest) = rest else {
            return None;
        };
        before = Division {
            lines: before.lines + 1,
            bytes: before.bytes + line.len() + 1,
        };
        left = rest;
    }
}

/// The bytes of the script of an input: all of them, where it has no journals.
pub(crate) fn script_part(bytes: &[u8], division: Option<Division>) -> &[u8]
    requires { IfSome division (λ d. d.bytes ≤ length bytes.now) }
    ensures part { result.now ≡ script_bytes division bytes.now }
    ensures short { length result.now ≤ length bytes.now }
{
    match division {
        Some(division) => &bytes[..division.bytes],
        None => bytes,
    }
}

/// The bytes of the journals of an input.
pub(crate) fn journal_part(bytes: &[u8], division: Division) -> &[u8]
    requires { division.bytes ≤ length bytes.now }
    ensures part { result.now ≡ journal_bytes division bytes.now }
    ensures short { length result.now ≤ length bytes.now }
{
    &bytes[division.bytes..]
}
