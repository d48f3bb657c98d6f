//! The words after the program's name.
ghost use Rattle.std.specs.Prelude.{◌≡◌};
ghost use Rattle.pair_top.specs.Forms.{form_of as form_in, usage_line};

use pair_text::PairKind;
use rc_base::is_text;

/// What the words after the program's name ask for. (This project's profile.)
#[derive(Clone, Copy, Debug, PartialEq, Eq)]
pub struct Form {
    /// `--quiet`: the report leaves out the commands.
    pub quiet: bool,
}

/// The line of `resctrl_cdp` for a command line that is not valid.
pub const CDP_USAGE: &str = "usage: resctrl_cdp [--quiet]\n";

/// The line of `resctrl_l2` for a command line that is not valid.
pub const L2_USAGE: &str = "usage: resctrl_l2 [--quiet]\n";

/// What a command line asks for, and None where it is not valid: no word, or `--quiet` alone. (This project's profile.)
pub fn form_of(words: &[String]) -> Option<Form>
    ensures { result ≡ form_in words.now }
{
    match words {
        [] => Some(Form { quiet: false }),
        [word] if is_text(word.as_bytes(), b"--quiet") => Some(Form { quiet: true }),
        _ => None,
    }
}

/// The usage line of the program for scripts of a kind, as bytes.
pub(crate) fn usage_bytes(kind: PairKind) -> &'static [u8]
    ensures { result.now ≡ usage_line kind }
{
    match kind {
        PairKind::Cdp => CDP_USAGE.as_bytes(),
        PairKind::Levels => L2_USAGE.as_bytes(),
    }
}
