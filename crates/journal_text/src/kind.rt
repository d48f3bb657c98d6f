//! What kind of entry a line tells of.
ghost use Rattle.std.specs.Prelude.{◌≡◌, MatchOption};
ghost use Rattle.journal_text.specs.Kinds.{word_of};

use rc_base::is_text;

/// The kinds of entries of a slice.
#[derive(Clone, Copy, Debug, PartialEq, Eq)]
pub(crate) enum EntryKind {
    // An access.
    Access,
    // A floor was raised.
    Raise,
    // All ways were emptied.
    Flush,
    // A region was locked.
    Lock,
    // Lines were counted.
    Look,
    // A line was flushed.
    Drop,
}

/// The kind whose lines begin with this word; None where no kind's do.
pub(crate) fn kind_named(word: &[u8]) -> Option<EntryKind>
    ensures { MatchOption result ((kind : EntryKind) → word_of kind ≡ word.now → ⊥) (λ kind. word_of kind ≡ word.now) }
{
    if is_text(word, b"access") {
        Some(EntryKind::Access)
    } else if is_text(word, b"raise") {
        Some(EntryKind::Raise)
    } else if is_text(word, b"flush") {
        Some(EntryKind::Flush)
    } else if is_text(word, b"lock") {
        Some(EntryKind::Lock)
    } else if is_text(word, b"look") {
        Some(EntryKind::Look)
    } else if is_text(word, b"drop") {
        Some(EntryKind::Drop)
    } else {
        None
    }
}
