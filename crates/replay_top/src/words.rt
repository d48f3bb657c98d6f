//! The words after the program's name.
ghost use Rattle.std.specs.Prelude.{◌≡◌};
ghost use Rattle.replay_top.specs.Words.{flags_of as flags_asked, form_of as form_in, usage_line};

use crate::flags::{are_flags, flags_in, has_flags_once};
use crate::form::ReplayForm;
use rc_base::is_text;
use report_pieces::Flags;

/// The line for a command line that is not valid.
pub const USAGE: &str =
    "usage: resctrl_replay order | report [--journal] [--json] [--windows] [--quiet]\n";

// The flags that these words are, each at most once; None where one of them is no flag or stands twice.
fn flags_of(words: &[String]) -> Option<Flags>
    ensures { result ≡ flags_asked words.now }
{
    if are_flags(words) && has_flags_once(words) {
        Some(flags_in(words))
    } else {
        None
    }
}

/// What a command line asks for, and None where it is not valid: `order` and no other word, or `report` with any of the flags of the
/// simulator's report, each at most once, in any order after the first word. (This project's profile.)
pub(crate) fn form_of(words: &[String]) -> Option<ReplayForm>
    ensures { result ≡ form_in words.now }
{
    match words {
        [word] if is_text(word.as_bytes(), b"order") => Some(ReplayForm::Order),
        [word, more @ ..] if is_text(word.as_bytes(), b"report") => {
            flags_of(more).map(ReplayForm::Report)
        }
        _ => None,
    }
}

/// The usage line, as bytes.
pub(crate) fn usage_bytes() -> &'static [u8]
    ensures { result.now ≡ usage_line }
{
    USAGE.as_bytes()
}
