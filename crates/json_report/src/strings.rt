//! Strings of JSON. A script's names and texts are bytes, and so are these strings.
ghost use Rattle.std.specs.Prelude.{◌≡◌, ◌/◌, ◌%◌, ◌<◌, ◌++◌, ◌∷◌, [], OnOk};
ghost use Rattle.std.specs.Char.{digit_char};
ghost use Rattle.json.specs.Print.{escape, escape_byte, escape_letter, quoted};

use num_text::GrowingText;
use rc_base::NoMemory;

// The letter after the backslash of a byte that has one, and else 0.
fn letter_of(byte: u8) -> u8
    ensures { result ≡ escape_letter byte }
{
    match byte {
        b'"' | b'\\' => byte,
        8 => b'b',
        12 => b'f',
        b'\n' => b'n',
        b'\r' => b'r',
        b'\t' => b't',
        _ => 0,
    }
}

// A hexadecimal digit.
fn digit_of(digit: u8) -> u8
    requires { digit < 16 }
    ensures { result ≡ digit_char digit }
{
    if digit < 10 {
        b'0' + digit
    } else {
        b'a' + (digit - 10)
    }
}

// Adds a byte by its code.
fn push_code(report: &mut GrowingText, byte: u8) -> Result<(), NoMemory>
    requires { byte < 32 }
    ensures { OnOk result (report.new ≡ report.old ++ (92 ∷ 117 ∷ 48 ∷ 48 ∷ digit_char (byte / 16) ∷ digit_char (byte % 16) ∷ [])) }
{
    let text = [
        b'\\',
        b'u',
        b'0',
        b'0',
        digit_of(byte / 16),
        digit_of(byte % 16),
    ];
    report.push(text.as_slice())
}

// Adds a byte of a string.
#[tactic(auto, unfolding(json::specs::Print::escape_byte))]
fn push_byte(report: &mut GrowingText, byte: u8) -> Result<(), NoMemory>
    ensures { OnOk result (report.new ≡ report.old ++ escape_byte byte) }
{
    let letter = letter_of(byte);
    if letter > 0 {
        return report.push([b'\\', letter].as_slice());
    }
    if byte < 32 {
        return push_code(report, byte);
    }
    report.push([byte].as_slice())
}

// Adds the bytes of a string.
fn push_bytes(report: &mut GrowingText, text: &[u8]) -> Result<(), NoMemory>
    ensures { OnOk result (report.new ≡ report.old ++ escape text.now) }
{
    for byte in text {
        push_byte(report, *byte)?;
    }
    Ok(())
}

/// Adds a string of these bytes, in quotes.
pub(crate) fn push_string(report: &mut GrowingText, text: &[u8]) -> Result<(), NoMemory>
    ensures { OnOk result (report.new ≡ report.old ++ quoted text.now) }
{
    report.push(b"\"".as_slice())?;
    push_bytes(report, text)?;
    report.push(b"\"".as_slice())
}
