//! Comparing texts.
ghost use Rattle.std.specs.Prelude.{◌≡◌};
ghost use Rattle.rc_base.specs.Texts.{is_text};

/// Whether a text has just the bytes of this word.
#[tactic(auto, unfolding(crate::specs::Texts::is_text))]
pub fn is_text(text: &[u8], word: &[u8]) -> bool
    ensures { result ≡ is_text text.now word.now }
{
    text == word
}
