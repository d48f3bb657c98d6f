//! What a step writes.
ghost use Rattle.std.specs.Prelude.{◌≡◌};

/// What a step writes: a word goes from one number to another.
#[derive(Clone, Copy)]
pub(crate) struct Change {
    /// Which word.
    pub(crate) word: usize,
    /// The number that it has before the step.
    pub(crate) before: u64,
    /// The number that it has after it.
    pub(crate) after: u64,
}

/// The change of a step under this word that shows nothing: the word stays as it is.
pub(crate) fn none(word: usize) -> Change
    ensures { result.word ≡ word }
{
    Change {
        word,
        before: 0,
        after: 0,
    }
}

/// The change of what the first word shows.
pub(crate) fn shown(before: u64, after: u64) -> Change
    ensures { (result.word ≡ 0) × (result.before ≡ before) × (result.after ≡ after) }
{
    Change {
        word: 0,
        before,
        after,
    }
}
