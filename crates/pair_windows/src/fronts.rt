//! The entries that may stand in the windows that begin at one flush.
ghost use Rattle.std.specs.Prelude.{◌≡◌, ◌≤◌, length};
ghost use Rattle.std.specs.List.{position, position_or_len};
ghost use Rattle.cache_core.specs.Filled.{empties};
ghost use Rattle.cache_core.specs.declared.entry.SliceEntry.{SliceEntry as Entry};
ghost use Rattle.pair_windows.specs.Fronts.{flush_len, front_len, is_flush};

use cache_core::{SliceEntry, What};

// Whether this empties the cache.
fn empties(what: What) -> bool
    ensures { result ≡ empties what }
{
    matches!(what, What::Flush | What::Lock { .. })
}

// Whether this is a flush.
fn is_flush(what: What) -> bool
    ensures { result ≡ is_flush what }
{
    matches!(what, What::Flush)
}

// The first of these entries that empties the cache.
fn first_empty(entries: &[SliceEntry]) -> Option<usize>
    ensures { result ≡ position (λ (e : Entry). empties e.what) entries.now }
{
    entries.iter().position(|e| empties(e.what))
}

/// How many of these entries stand before the first that empties the cache.
pub(crate) fn front_len(entries: &[SliceEntry]) -> usize
    ensures len { result ≡ front_len entries.now }
    ensures within { result ≤ length entries.now }
{
    first_empty(entries).unwrap_or(entries.len())
}

// The first of these entries that is a flush.
fn first_flush(entries: &[SliceEntry]) -> Option<usize>
    ensures { result ≡ position (λ (e : Entry). is_flush e.what) entries.now }
{
    entries.iter().position(|e| is_flush(e.what))
}

/// How many of these entries stand before the first that is a flush.
pub(crate) fn flush_len(entries: &[SliceEntry]) -> usize
    ensures len { result ≡ flush_len entries.now }
    ensures within { result ≤ length entries.now }
{
    first_flush(entries).unwrap_or(entries.len())
}
