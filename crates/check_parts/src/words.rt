//! The words after the program's name.
ghost use Rattle.std.specs.Prelude.{◌≡◌};
ghost use Rattle.check_parts.specs.Forms.{form_of as form_in, play_in, usage_line};

use crate::form::{Form, Play};
use rc_base::is_text;

/// The line for a command line that is not valid.
pub const USAGE: &str = "usage: resctrl_check export step|export run|check\n";

// How a word has a script played.
fn play_of(text: &[u8]) -> Option<Play>
    ensures { result ≡ play_in text.now }
{
    if is_text(text, b"step") {
        Some(Play::Step)
    } else if is_text(text, b"run") {
        Some(Play::Run)
    } else {
        None
    }
}

/// What a command line asks for, and None where it is not valid: `export step`, `export run` or `check`, and nothing else. (This
/// project's profile.)
pub fn form_of(words: &[String]) -> Option<Form>
    ensures { result ≡ form_in words.now }
{
    match words {
        [command] if is_text(command.as_bytes(), b"check") => Some(Form::Check),
        [command, play] if is_text(command.as_bytes(), b"export") => {
            play_of(play.as_bytes()).map(Form::Export)
        }
        _ => None,
    }
}

/// The usage line as bytes.
pub fn usage_bytes() -> &'static [u8]
    ensures { result.now ≡ usage_line }
{
    USAGE.as_bytes()
}
