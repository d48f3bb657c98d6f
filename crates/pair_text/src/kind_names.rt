//! The kinds of lines, by their first words.
ghost use Rattle.std.specs.Prelude.{◌≡◌};
ghost use Rattle.pair_text.specs.Kinds.{any_kind, may_stand, pair_kind_of, use_kind};

use crate::kind::{Kind, PairKind, Place};
use rc_base::is_text;

// A kind of line that both kinds of script have.
fn any_kind(word: &[u8]) -> Option<Kind>
    ensures { result ≡ any_kind word.now }
{
    if is_text(word, b"machine") {
        Some(Kind::Machine)
    } else if is_text(word, b"tasks") {
        Some(Kind::Tasks)
    } else if is_text(word, b"mkdir") {
        Some(Kind::Mkdir)
    } else if is_text(word, b"rmdir") {
        Some(Kind::Rmdir)
    } else if is_text(word, b"write") {
        Some(Kind::Write)
    } else if is_text(word, b"read") {
        Some(Kind::Read)
    } else if is_text(word, b"flush") {
        Some(Kind::Flush)
    } else {
        None
    }
}

// A kind of line for uses that this kind of script has.
fn use_kind(kind: PairKind, word: &[u8]) -> Option<Kind>
    ensures { result ≡ use_kind kind word.now }
{
    match kind {
        PairKind::Cdp => {
            if is_text(word, b"trace") {
                Some(Kind::Trace)
            } else {
                None
            }
        }
        PairKind::Levels => {
            if is_text(word, b"access") {
                Some(Kind::Access)
            } else if is_text(word, b"sweep") {
                Some(Kind::Sweep)
            } else {
                None
            }
        }
    }
}

/// The kind of a line that begins with this word.
#[tactic(auto, unfolding(crate::specs::Kinds::pair_kind_of))]
pub fn kind_named(kind: PairKind, word: &[u8]) -> Option<Kind>
    ensures { result ≡ pair_kind_of kind word.now }
{
    match any_kind(word) {
        Some(line) => Some(line),
        None => use_kind(kind, word),
    }
}

/// Whether such a line may stand here.
pub fn may_stand(line: Kind, place: Place) -> bool
    ensures { result ≡ may_stand line place }
{
    match (line, place) {
        (Kind::Machine, Place::Start) => true,
        (Kind::Machine, _) => false,
        (Kind::Tasks, Place::Head) => true,
        (Kind::Tasks, _) => false,
        (_, Place::Start) => false,
        (_, _) => true,
    }
}
