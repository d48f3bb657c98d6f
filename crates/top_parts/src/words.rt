//! The words after the program's name.
ghost use Rattle.std.specs.Prelude.{◌≡◌, ◌≤◌, ◌∷◌, IfSome, [], codes, find, length, not, option_copied};
ghost use Rattle.top_parts.specs.Forms.{IsInRange, command_of as command_in, flags_in, form_of as form_in, has_flags_once as are_flags_once, is_flag as is_flag_word, is_word as is_this_word, number_in, others_in, stands_in, stands_once, usage_line};

use crate::command::Command;
use crate::form::Form;
use num_text::read_dec;
use rc_base::is_text;
use report_pieces::Flags;
use trace_gen::MOST_THREAD_ACCESSES;

/// The line for a command line that is not valid.
pub const USAGE: &str =
    "usage: resctrl_sim step|run|gen N [--journal] [--json] [--windows] [--quiet]\n";

// Whether a word is this text.
fn is_word(word: &String, text: &[u8]) -> bool
    ensures { result ≡ is_this_word text.now word.now }
{
    is_text(word.as_bytes(), text)
}

// Whether a word is one of the four flags.
fn is_flag(word: &String) -> bool
    ensures { result ≡ is_flag_word word.now }
{
    is_word(word, b"--journal".as_slice())
        || is_word(word, b"--json".as_slice())
        || is_word(word, b"--windows".as_slice())
        || is_word(word, b"--quiet".as_slice())
}

// Whether a text stands among words.
fn has(words: &[String], text: &[u8]) -> bool
    ensures { result ≡ stands_in words.now text.now }
{
    words.iter().any(|w| is_word(w, text))
}

// Whether a text stands among words at most once.
#[tactic(auto, unfolding(crate::specs::Forms::stands_once))]
fn has_once(words: &[String], text: &[u8]) -> bool
    ensures { result ≡ stands_once words.now text.now }
{
    words.iter().filter(|w| is_word(w, text)).count() <= 1
}

// Whether each flag stands among words at most once.
fn has_flags_once(words: &[String]) -> bool
    ensures { result ≡ are_flags_once words.now }
{
    has_once(words, b"--journal".as_slice())
        && has_once(words, b"--json".as_slice())
        && has_once(words, b"--windows".as_slice())
        && has_once(words, b"--quiet".as_slice())
}

// The flags that stand among words.
fn flags_of(words: &[String]) -> Flags
    ensures { result ≡ flags_in words.now }
{
    Flags {
        journal: has(words, b"--journal".as_slice()),
        json: has(words, b"--json".as_slice()),
        windows: has(words, b"--windows".as_slice()),
        quiet: has(words, b"--quiet".as_slice()),
    }
}

// The number of `gen` that a word is.
fn number_of(word: &String) -> Option<u32>
    ensures number { result ≡ number_in word.now }
    ensures range { IfSome result (λ n. (1 ≤ n) × (n ≤ MOST_THREAD_ACCESSES)) }
{
    match read_dec(word.as_bytes()) {
        Some(n) if 1 <= n && n <= u64::from(MOST_THREAD_ACCESSES) => Some(n as u32),
        _ => None,
    }
}

// `step` or `run`, which have no other words but flags.
fn bare_command(first: &String) -> Option<Command>
    ensures command { result ≡ command_in first.now [] }
    ensures range { IfSome result (λ c. IsInRange c) }
{
    if is_word(first, b"step".as_slice()) {
        Some(Command::Step)
    } else if is_word(first, b"run".as_slice()) {
        Some(Command::Run)
    } else {
        None
    }
}

// `gen` with its number.
fn gen_of(first: &String, number: &String) -> Option<Command>
    ensures command { result ≡ command_in first.now (number.now ∷ []) }
    ensures range { IfSome result (λ c. IsInRange c) }
{
    if is_word(first, b"gen".as_slice()) {
        number_of(number).map(Command::Gen)
    } else {
        None
    }
}

// The first word that is no flag.
fn first_other(words: &[String]) -> Option<&String>
    ensures { option_copied result ≡ find (λ w. not (is_flag_word w)) words.now }
{
    words.iter().find(|w| !is_flag(w))
}

// How many words are no flags.
fn count_others(words: &[String]) -> usize
    ensures { result ≡ length (others_in words.now) }
{
    words.iter().filter(|w| !is_flag(w)).count()
}

// The command that the first word names with those of the others that are no flags.
fn command_of(first: &String, words: &[String]) -> Option<Command>
    ensures command { result ≡ command_in first.now (others_in words.now) }
    ensures range { IfSome result (λ c. IsInRange c) }
{
    match first_other(words) {
        None => bare_command(first),
        Some(number) if count_others(words) == 1 => gen_of(first, number),
        Some(_) => None,
    }
}

/// The form of a command line, and None where it is not valid: `step`, `run`, or `gen` and its number, with any of the flags, each at
/// most once, in any order after the first word. (This project's profile.)
pub fn form_of(words: &[String]) -> Option<Form>
    ensures form { result ≡ form_in words.now }
    ensures range { IfSome result (λ form. IsInRange form.command) }
{
    match words {
        [first, more @ ..] if has_flags_once(more) => {
            command_of(first, more).map(|command| Form {
                command,
                flags: flags_of(more),
            })
        }
        _ => None,
    }
}

/// The usage line as bytes.
pub fn usage() -> &'static [u8]
    ensures { result.now ≡ usage_line }
{
    USAGE.as_bytes()
}
