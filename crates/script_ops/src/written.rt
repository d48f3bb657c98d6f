//! The text of a write, as a script says it.
ghost use Rattle.std.specs.Prelude.{◌≡◌, ◌++◌, OnOk};
ghost use Rattle.std.specs.List.{flat_map};
ghost use Rattle.script_ops.specs.Canonical.{escaped, text_after};

use num_text::GrowingText;
use rc_base::NoMemory;

/// Adds a written text after a space and with its escapes, and nothing where it is empty (this project's profile). An error is out of
/// memory, after which a part of it may have been added.
pub fn push_written(text: &mut GrowingText, written: &[u8]) -> Result<(), NoMemory>
    ensures { OnOk result (text.new ≡ text.old ++ text_after written.now) }
{
    if written.is_empty() {
        return Ok(());
    }
    text.push(b" ")?;
    push_all_escaped(text, written)
}

// Adds a byte of a written text.
fn push_escaped(text: &mut GrowingText, byte: u8) -> Result<(), NoMemory>
    ensures { OnOk result (text.new ≡ text.old ++ escaped byte) }
{
    match byte {
        b'\n' => text.push(b"\\n"),
        b'\\' => text.push(b"\\\\"),
        _ => text.push([byte].as_slice()),
    }
}

// Adds the bytes of a written text.
fn push_all_escaped(text: &mut GrowingText, written: &[u8]) -> Result<(), NoMemory>
    ensures { OnOk result (text.new ≡ text.old ++ flat_map escaped written.now) }
{
    for byte in written {
        push_escaped(text, *byte)?;
    }
    Ok(())
}
