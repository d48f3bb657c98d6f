//! The flags of a report among words.
ghost use Rattle.std.specs.Prelude.{◌≡◌};
ghost use Rattle.std.specs.List.{list_all};
ghost use Rattle.top_parts.specs.Forms.{flags_in as flags_among, has_flags_once as are_flags_once, is_flag as is_flag_word, is_word as is_this_word, stands_in, stands_once};

use rc_base::is_text;
use report_pieces::Flags;

// Whether a word is this text.
fn is_word(word: &String, text: &[u8]) -> bool
    ensures { result ≡ is_this_word text.now word.now }
{
    is_text(word.as_bytes(), text)
}

// Whether a word is one of the four flags.
fn is_flag(word: &String) -> bool
    ensures { result ≡ is_flag_word word.now }
{
    is_word(word, b"--journal".as_slice())
        || is_word(word, b"--json".as_slice())
        || is_word(word, b"--windows".as_slice())
        || is_word(word, b"--quiet".as_slice())
}

/// Whether all words are flags.
pub(crate) fn are_flags(words: &[String]) -> bool
    ensures { result ≡ list_all is_flag_word words.now }
{
    words.iter().all(|w| is_flag(w))
}

// Whether a text stands among words.
fn has(words: &[String], text: &[u8]) -> bool
    ensures { result ≡ stands_in words.now text.now }
{
    words.iter().any(|w| is_word(w, text))
}

// Whether a text stands among words at most once.
#[tactic(auto, unfolding(top_parts::specs::Forms::stands_once))]
fn has_once(words: &[String], text: &[u8]) -> bool
    ensures { result ≡ stands_once words.now text.now }
{
    words.iter().filter(|w| is_word(w, text)).count() <= 1
}

/// Whether each flag stands among words at most once.
pub(crate) fn has_flags_once(words: &[String]) -> bool
    ensures { result ≡ are_flags_once words.now }
{
    has_once(words, b"--journal".as_slice())
        && has_once(words, b"--json".as_slice())
        && has_once(words, b"--windows".as_slice())
        && has_once(words, b"--quiet".as_slice())
}

/// The flags that stand among words.
pub(crate) fn flags_in(words: &[String]) -> Flags
    ensures { result ≡ flags_among words.now }
{
    Flags {
        journal: has(words, b"--journal".as_slice()),
        json: has(words, b"--json".as_slice()),
        windows: has(words, b"--windows".as_slice()),
        quiet: has(words, b"--quiet".as_slice()),
    }
}
