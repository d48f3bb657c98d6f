//! Whether an entry is one that its command owes.
ghost use Rattle.std.specs.Prelude.{◌≡◌, ℕ, ◌+◌, ◌≤◌, ◌↔◌, Contains, IsTrue, Some, false, slice_get};
ghost use Rattle.cache_core.specs.Whats.{is_access};
ghost use Rattle.journal_check.specs.Traces.{HasFollow, owed_by_step};
ghost use Rattle.machine.specs.Maps.{parameters_of};
ghost use Rattle.machine.specs.Slices.{domain_in, slice_count, slice_of_line};
ghost use Rattle.run_law.specs.Owed.{is_entered_in, paid_by, undecided, what_of};

use crate::trace::Step;
use cache_core::{SliceEntry, What};
use machine::Machine;
use tree_core::Follow;

/// An entry's content but for what the slice itself decides.
pub(crate) fn undecided(what: What) -> What
    ensures { result ≡ undecided what }
{
    match what {
        What::Access {
            owner,
            rmid,
            mask,
            line,
            ..
        } => What::Access {
            hit: false,
            way: 0,
            owner,
            rmid,
            mask,
            line,
        },
        What::Look { rmid, .. } => What::Look { rmid, lines: 0 },
        What::Raise => What::Raise,
        What::Flush => What::Flush,
        What::Lock { mask, first_line } => What::Lock { mask, first_line },
        What::Drop { line, .. } => What::Drop { line, way: None },
    }
}

/// Whether two contents are the same.
pub(crate) fn is_same(what: What, other: What) -> bool
    ensures { IsTrue result ↔ (what ≡ other) }
{
    what == other
}

/// Whether an entry is an access.
pub(crate) fn is_access(what: What) -> bool
    ensures { result ≡ is_access what }
{
    matches!(what, What::Access { .. })
}

/// What a follow-up enters.
pub(crate) fn what_of(follow: &Follow) -> What
    ensures { result ≡ what_of follow.now }
{
    match *follow {
        Follow::Raise { .. } => What::Raise,
        Follow::Flush { .. } => What::Flush,
        Follow::Lock {
            mask,
            first_line,
            ..
        } => What::Lock { mask, first_line },
        Follow::Touch { tag, line } => What::Access {
            hit: false,
            way: 0,
            owner: tag.owner,
            rmid: tag.rmid,
            mask: tag.mask,
            line,
        },
        Follow::Drop { line, .. } => What::Drop { line, way: None },
    }
}

// The slice of a line in a domain, by its number over all domains.
fn slice_of_line(m: &Machine, domain: u8, line: u64) -> usize
    ensures { result ≡ slice_of_line (parameters_of m.now) domain line }
{
    m.first_slice(domain) + usize::from(m.slice_of(line))
}

/// Whether a follow-up is entered in slice i.
pub(crate) fn is_entered_in(m: &Machine, i: usize, follow: &Follow) -> bool
    ensures { result ≡ is_entered_in (parameters_of m.now) i follow.now }
{
    match *follow {
        Follow::Raise { domain } | Follow::Flush { domain } | Follow::Lock { domain, .. } => {
            usize::from(domain) == i / usize::from(m.slices)
        }
        Follow::Touch { tag, line } => slice_of_line(m, tag.domain, line) == i,
        Follow::Drop { domain, line } => slice_of_line(m, domain, line) == i,
    }
}

// Whether one of these follow-ups enters this content in slice i.
fn is_followed(m: &Machine, i: usize, follows: &[Follow], what: What) -> bool
    ensures { IsTrue result ↔ HasFollow (parameters_of m.now) i follows.now what }
{
    for k in 0..follows.len() {
        if is_entered_in(m, i, &follows[k]) && is_same(what_of(&follows[k]), what) {
            return true;
        }
    }
    false
}

/// Whether an entry of slice i is one that a command at position k owes there, by what it needed and what followed it.
pub(crate) fn is_owed(m: &Machine, i: u8, k: u64, step: &Step, entry: &SliceEntry) -> bool
    requires { k ≤ 4000000 }
    ensures { IsTrue result ↔ Contains (owed_by_step (parameters_of m.now) i k step.now) (paid_by entry.now) }
{
    match entry.what {
        What::Look { rmid, .. } => { entry.epoch == k && step.needs.has(i / m.slices, rmid) }
        what => entry.epoch == k + 1
            && is_followed(m, usize::from(i), &step.follows, undecided(what)),
    }
}
