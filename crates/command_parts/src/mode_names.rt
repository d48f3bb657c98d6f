//! The names of modes, and the name in a written text.
ghost use Rattle.std.specs.Prelude.{◌≡◌};
ghost use Rattle.num_text.specs.Blanks.{trim};
ghost use Rattle.tree_law.specs.commands.Mode.{is_named, mode_name as name_of};

use num_text::trim;
use rc_base::{Mode, is_text};

/// The name of a mode in the file `mode` (kernel documentation, "Resource alloc and monitor groups").
pub fn mode_name(mode: Mode) -> &'static str
    ensures { result.now ≡ name_of mode }
{
    match mode {
        Mode::Shareable => "shareable",
        Mode::Exclusive => "exclusive",
        Mode::LockSetup => "pseudo-locksetup",
        Mode::Locked => "pseudo-locked",
    }
}

/// Whether a text is the name of this mode, but for blanks at both ends (the blanks are this project's profile).
pub fn is_named(text: &[u8], mode: Mode) -> bool
    ensures { result ≡ is_named (trim text.now) mode }
{
    is_text(trim(text), mode_name(mode).as_bytes())
}
