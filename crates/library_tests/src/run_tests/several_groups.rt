//! The counts of small windows of groups 1 and 2.
ghost use Rattle.std.specs.Prelude.{◌≡◌, ◌^◌, ◌<◌, length};

use super::{LOCK, access, counts};
use cache_core::{SliceEntry, What};
use private_lru::{ExclusiveSpan, WindowCounts, counts_of};
use rc_base::{Gid, NoMemory};
use std::alloc::Global;
use std::test::Fail;

// A group that is exclusive up to an epoch.
fn stay(group: u32, last: u64) -> ExclusiveSpan
    ensures { result.gid.0 ≡ group }
{
    ExclusiveSpan {
        last,
        gid: Gid(group),
        mask: 3,
    }
}

// The counts of the windows of groups 1 and 2, which are exclusive up to these epochs, in a cache of two sets.
fn counted(
    alloc: Global,
    last: (u64, u64),
    opening: What,
    entries: &[SliceEntry],
) -> Result<Vec<WindowCounts>, NoMemory>
    requires { length entries.now < 2 ^ 32 }
{
    let stays = [stay(1, last.0), stay(2, last.1)];
    counts_of(alloc, &stays, 2, opening, entries)
}

#[test]
fn groups_are_counted_apart(rt: HostRuntime) -> Result<(), Fail> {
    let entries = [
        access(3, 1, 0, false),
        access(3, 2, 8, false),
        access(3, 1, 0, true),
        access(3, 2, 0, true),
        access(3, 1, 0, true),
        access(3, 7, 8, true),
        access(3, 2, 8, true),
    ];
    assert_eq!(rt;
        counted(rt.alloc(), (9, 9), What::Flush, &entries)?.as_slice(),
        [counts(3, 2, 2, 1), counts(3, 2, 0, 0)].as_slice()
    );
    Ok(())
}

#[test]
fn each_window_ends_at_its_own_epoch(rt: HostRuntime) -> Result<(), Fail> {
    let entries = [
        access(3, 1, 0, false),
        access(4, 2, 0, true),
        access(3, 1, 0, true),
        access(4, 2, 8, false),
    ];
    assert_eq!(rt;
        counted(rt.alloc(), (3, 4), What::Flush, &entries)?.as_slice(),
        [counts(1, 0, 1, 0), counts(2, 1, 0, 0)].as_slice()
    );
    Ok(())
}

#[test]
fn lines_that_the_lock_loaded_are_not_covered(rt: HostRuntime) -> Result<(), Fail> {
    let entries = [
        access(3, 1, 0, false),
        access(3, 1, 67, true),
        access(3, 2, 9, false),
    ];
    assert_eq!(rt;
        counted(rt.alloc(), (9, 9), LOCK, &entries)?.as_slice(),
        [counts(2, 1, 0, 0), counts(1, 0, 1, 0)].as_slice()
    );
    Ok(())
}

#[test]
fn lines_beside_the_region_and_of_nobody_else_are_covered(rt: HostRuntime) -> Result<(), Fail> {
    let entries = [
        access(3, 1, 0, false),
        access(3, 7, 2, false),
        access(3, 1, 68, false),
        access(3, 1, 0, true),
    ];
    assert_eq!(rt;
        counted(rt.alloc(), (9, 9), LOCK, &entries)?.as_slice(),
        [counts(3, 1, 3, 1), counts(0, 0, 0, 0)].as_slice()
    );
    Ok(())
}
