//! Counts of calls: those of which some are to fail, and those that met the end of a source.
ghost use Rattle.std.specs.Prelude.{◌≡◌, ◌+◌, ◌^◌, ◌-◌, ◌<◌, ◌⊎◌, ◌↔◌, IsTrue, Contains, length, min};

/// The number of the next call. It stands still at the greatest number.
pub fn next_call(calls: u64) -> u64
    ensures { result ≡ min (calls + 1) (2 ^ 64 - 1) }
{
    calls.saturating_add(1)
}

/// Whether the call of this number is to fail.
pub fn is_listed(failing: &[u32], call: u64) -> bool
    ensures { IsTrue result ↔ Contains failing.now call }
{
    failing.iter().any(|k| u64::from(*k) == call)
}

/// The count of ends after a read of so many bytes into this room: one more where it is an end, which is none into room for some. It
/// stands still at the greatest number.
pub(crate) fn ends_with(ends: u64, count: usize, into: &[u8]) -> u64
    ensures end { count ≡ 0 → 0 < length into.now → result ≡ min (ends + 1) (2 ^ 64 - 1) }
    ensures other { 0 < count ⊎ length into.now ≡ 0 → result ≡ ends }
{
    if count == 0 && !into.is_empty() {
        next_call(ends)
    } else {
        ends
    }
}
