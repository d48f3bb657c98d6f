//! Runs and windows, one file for each subject.

mod journals;
mod left_lines;
mod private_caches;
mod several_groups;
mod stays;
mod steps;

use cache_core::{SliceEntry, What};
use private_lru::WindowCounts;
use rc_base::Gid;

/// An access of a group to a line, at an epoch.
pub(crate) fn access(epoch: u64, group: u32, line: u64, hit: bool) -> SliceEntry {
    SliceEntry {
        thread: 0,
        op: 0,
        epoch,
        what: What::Access {
            owner: Gid(group),
            rmid: 0,
            mask: 3,
            line,
            hit,
            way: 0,
        },
    }
}

/// The region of lines 64 to 67, in a cache of two sets.
pub(crate) const LOCK: What = What::Lock {
    mask: 12,
    first_line: 64,
};

/// These counts of a window.
pub(crate) fn counts(accesses: u64, hits: u64, covered: u64, covered_hits: u64) -> WindowCounts {
    WindowCounts {
        accesses,
        hits,
        covered,
        covered_hits,
    }
}
