//! The words of a table: each lock has one of its own.
ghost use Rattle.std.specs.Prelude.{◌≡◌, ◌<◌, ◌^◌};
ghost use Rattle.shared_parts.specs.Words.{word_of, words_for};

// How many words a cache line has: 64 bytes.
const LINE: usize = 8;

/// The word of a lock.
pub(crate) fn word_under(lock: usize) -> usize
    requires few { lock < 2 ^ 33 }
    ensures word { result ≡ word_of lock }
{
    LINE * (lock + 1)
}

/// How many words a table for so many locks has.
pub(crate) fn word_count(locks: u32) -> usize
    ensures count { result ≡ words_for locks }
{
    LINE * locks as usize + 1
}
