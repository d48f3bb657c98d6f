//! The worked run: the only thread uses a line, leaves the way of that line out of the mask, and hits the line there.
ghost use Rattle.std.specs.Prelude.{◌≡◌, IfOk, length};

use cache_core::{SliceEntry, What};
use rc_base::{Gid, LookList, Reply};
use run_law::{Journals, TreeEntry};
use std::alloc::Global;
use std::test::Fail;

/// Its script.
pub(crate) const SCRIPT: &[u8] = b"machine sets=1 ways=4
tasks 1
phase
thread
access 1 0 0
write /schemata L3:0=c
access 1 0 0
";

/// The text of its journals.
pub(crate) const JOURNALS: &[u8] = b"journal 1
tree 0 1 0 0 0
slice 0 0 3
access 0 0 0 0 0 15 0 0 0
raise 0 1 1
access 0 2 1 0 0 12 0 1 0
end
";

/// The first access fills way 0 for the default group.
pub(crate) const FILL: SliceEntry = SliceEntry {
    thread: 0,
    op: 0,
    epoch: 0,
    what: What::Access {
        hit: false,
        way: 0,
        owner: Gid(0),
        rmid: 0,
        mask: 15,
        line: 0,
    },
};

/// The write raises the floor.
pub(crate) const RAISE: SliceEntry = SliceEntry {
    thread: 0,
    op: 1,
    epoch: 1,
    what: What::Raise,
};

/// The second access hits way 0, which the new mask leaves out.
pub(crate) const HIT: SliceEntry = SliceEntry {
    thread: 0,
    op: 2,
    epoch: 1,
    what: What::Access {
        hit: true,
        way: 0,
        owner: Gid(0),
        rmid: 0,
        mask: 12,
        line: 0,
    },
};

/// The journals of one slice with these entries, and of a command that was given this count, if there is one, and accepted.
pub(crate) fn journals_of(
    alloc: Global,
    count: Option<u64>,
    entries: &[SliceEntry],
) -> Result<Journals, Fail>
    ensures { IfOk result (λ j. length j.slices ≡ 1) }
{
    let mut looks = LookList::with_room(alloc, 1)?;
    if let Some(count) = count {
        looks.push(count);
    }
    let command = TreeEntry {
        thread: 0,
        op: 1,
        reply: Reply::Ok,
        looks,
    };
    let slice = entries.to_vec(alloc)?;
    Ok(Journals::of(vec![in alloc; command]?, vec![in alloc; slice]?))
}
