//! Blanks: spaces and tabs.
ghost use Rattle.std.specs.Prelude.{◌≡◌, ◌≤◌, ◌-◌, length};
ghost use Rattle.num_text.specs.Blanks.{trim as trimmed, is_blank as blank, blanks_before, blanks_after};

/// Whether a byte is a space or a tab.
pub fn is_blank(byte: u8) -> bool
    ensures { result ≡ blank byte }
{
    byte == b' ' || byte == b'\t'
}

/// How many blanks a text begins with.
#[tactic(auto, using(crate::proofs::Trims::within))]
pub fn leading_blanks(text: &[u8]) -> usize
    ensures fits { result ≤ length text.now }
    ensures value { result ≡ blanks_before text.now }
{
    text.iter().take_while(|b| is_blank(**b)).count()
}

// Where the blanks at the end of a text begin.
#[tactic(auto, using(crate::proofs::Trims::one_less))]
fn last_word_end(text: &[u8]) -> usize
    ensures fits { result ≤ length text.now }
    ensures value { result ≡ length text.now - blanks_after text.now }
{
    let mut end = text.len();
    while end > 0 && is_blank(text[end - 1]) {
        end -= 1;
    }
    end
}

/// The text without the spaces and tabs at both ends (this project's profile).
pub fn trim(text: &[u8]) -> &[u8]
    ensures { result.now ≡ trimmed text.now }
{
    let text = &text[leading_blanks(text)..];
    &text[..last_word_end(text)]
}
