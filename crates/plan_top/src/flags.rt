//! Flags among the words of a command line.
ghost use Rattle.std.specs.Prelude.{◌≡◌};
ghost use Rattle.plan_top.specs.Flags.{after_flag as after_flag_in, begins_with as begins_with_in};

use rc_base::is_text;

/// Whether the first of these words is a flag.
pub(crate) fn begins_with(words: &[String], flag: &[u8]) -> bool
    ensures { result ≡ begins_with_in flag.now words.now }
{
    match words {
        [word, ..] => is_text(word.as_bytes(), flag),
        [] => false,
    }
}

/// The words after a flag, and all of them where the first is not the flag.
pub(crate) fn after_flag<'a>(words: &'a [String], flag: &[u8]) -> &'a [String]
    ensures { result.now ≡ after_flag_in flag.now words.now }
{
    let [word, later @ ..] = words else {
        return words;
    };
    if !is_text(word.as_bytes(), flag) {
        return words;
    }
    later
}
