//! The components of a path.
ghost use Rattle.std.specs.Prelude.{◌≡◌, ◌<◌, ◌≤◌, [], ◌∷◌, length, MatchOption};
ghost use Rattle.std.specs.List.{list_all, position_or_len, slice_split};
ghost use Rattle.path_names.specs.Components.{components, is_component, is_dots, is_slash, is_visible, is_well_formed};

use rc_base::is_text;

/// How many bytes the name of a component has at most (this project's profile).
pub const MOST_NAME_BYTES: usize = 255;

/// Whether the text is components, each after a slash. A component is 1 to 255 bytes from `!` to `~` without `/`, and neither `.` nor
/// `..` (this project's profile).
#[tactic(auto, unfolding(crate::specs::Components::is_well_formed))]
pub fn is_well_formed(text: &[u8]) -> bool
    ensures { result ≡ is_well_formed text.now }
{
    text.first() == Some(&b'/') && are_components(text)
}

// Whether all parts between slashes, after the first byte, are components.
fn are_components(text: &[u8]) -> bool
    ensures { result ≡ list_all is_component (components text.now) }
{
    let mut left = text;
    while let Some((name, rest)) = next_component(left) {
        if !is_component(name) {
            return false;
        }
        left = rest;
    }
    true
}

/// The part after the first byte, up to the next slash, and what is left from that slash on. None of an empty text. In a well-formed
/// text the first byte is a slash, and so is that of what is left.
pub fn next_component(text: &[u8]) -> Option<(&[u8], &[u8])>
    ensures { MatchOption result (components text.now ≡ []) (λ p. (components text.now ≡ p.0.now ∷ components p.1.now) × (length p.1.now < length text.now)) }
{
    match text {
        [] => None,
        [_, rest @ ..] => Some(cut(rest)),
    }
}

// The part up to the first slash, and what is left from that slash on.
fn cut(text: &[u8]) -> (&[u8], &[u8])
    ensures parts { slice_split is_slash text.now ≡ result.0.now ∷ components result.1.now }
    ensures shorter { length result.1.now ≤ length text.now }
{
    text.split_at(slash_at(text))
}

// The place of the first slash, or the length.
fn slash_at(text: &[u8]) -> usize
    ensures place { result ≡ position_or_len is_slash text.now }
    ensures within { result ≤ length text.now }
{
    text.iter().take_while(|b| **b != b'/').count()
}

// Whether this may stand between slashes.
#[tactic(auto, unfolding(crate::specs::Components::is_component))]
fn is_component(name: &[u8]) -> bool
    ensures { result ≡ is_component name.now }
{
    let len = name.len();
    1 <= len && len <= MOST_NAME_BYTES && are_visible(name) && !is_dots(name)
}

// Whether all bytes are from `!` to `~`.
fn are_visible(name: &[u8]) -> bool
    ensures { result ≡ list_all is_visible name.now }
{
    name.iter().all(|b| 0x21 <= *b && *b <= 0x7e)
}

// Whether this is `.` or `..`.
#[tactic(auto, using(crate::proofs::FixedEntries::is_text_lengths))]
fn is_dots(name: &[u8]) -> bool
    ensures { result ≡ is_dots name.now }
{
    name.len() <= 2 && (is_text(name, b".") || is_text(name, b".."))
}
