//! Journals of two small scripts: one run of each, and journals that differ from it in one thing.
ghost use Rattle.std.specs.Prelude.{◌≡◌, ◌≤◌, ◌^◌, length};

use crate::tests::worked_run::{FILL, HIT, RAISE, SCRIPT, journals_of};
use cache_core::{SliceEntry, What};
use journal_check::{Clause, Verdict, check};
use rc_base::Gid;
use script_text::read_script;
use std::alloc::Global;
use std::process::Abort;
use std::test::Fail;

// The verdict on journals whose tree took op 1, given this count if there is one, and accepted it.
fn verdict_on(
    rt: &impl Abort,
    alloc: Global,
    text: &[u8],
    count: Option<u64>,
    entries: &[SliceEntry],
) -> Result<Verdict, Fail>
    requires { length text.now ≤ 2 ^ 31 }
{
    let script = read_script(alloc, text)?;
    assert_eq!(rt; script.machine().slice_count(), 1);
    let journals = journals_of(alloc, count, entries)?;
    Ok(check(alloc, &script, &journals)?)
}

// The second access fills the line again, though it is there.
const FILLED_AGAIN: SliceEntry = SliceEntry {
    what: What::Access {
        hit: false,
        way: 2,
        owner: Gid(0),
        rmid: 0,
        mask: 12,
        line: 0,
    },
    ..HIT
};

// The second access hits within the old mask.
const WITHIN_THE_OLD_MASK: SliceEntry = SliceEntry {
    what: What::Access {
        hit: true,
        way: 0,
        owner: Gid(0),
        rmid: 0,
        mask: 15,
        line: 0,
    },
    ..HIT
};

// Entries of the worked run's slice and others, and the verdict on them.
const OF_A_NARROWER_MASK: [(&[SliceEntry], Verdict); 5] = [
    (&[FILL, RAISE, HIT], Verdict::Yes),
    (
        &[FILL, RAISE, FILLED_AGAIN],
        Verdict::No {
            clause: Clause::SlicesAreLegal,
        },
    ),
    (
        &[FILL, RAISE, WITHIN_THE_OLD_MASK],
        Verdict::No {
            clause: Clause::AccessesAreTrue,
        },
    ),
    // The hit knows of the write, but stands before its entry.
    (
        &[FILL, HIT, RAISE],
        Verdict::No {
            clause: Clause::StandAfterCommands,
        },
    ),
    // The second access is missing.
    (
        &[FILL, RAISE],
        Verdict::No {
            clause: Clause::EntriesStandOnce,
        },
    ),
];

#[test]
fn journals_of_a_narrower_mask(rt: HostRuntime) -> Result<(), Fail> {
    for (entries, verdict) in OF_A_NARROWER_MASK {
        let found = verdict_on(&rt, rt.alloc(), SCRIPT, None, entries)?;
        assert_eq!(rt; found, verdict);
    }
    Ok(())
}

const READ_OF_A_COUNT: &[u8] = b"machine sets=1 ways=4
tasks 1
phase
thread
access 1 0 0
read /mon_data/mon_L3_00/llc_occupancy
";

// The read counts the one line of the default group.
const LOOK: SliceEntry = SliceEntry {
    thread: 0,
    op: 1,
    epoch: 0,
    what: What::Look { rmid: 0, lines: 1 },
};

// It also looks for an RMID that it does not need.
const ANOTHER_LOOK: SliceEntry = SliceEntry {
    what: What::Look { rmid: 1, lines: 0 },
    ..LOOK
};

// The count that the read was given, entries, and the verdict on both.
const OF_A_READ: [(Option<u64>, &[SliceEntry], Verdict); 4] = [
    (Some(1), &[FILL, LOOK], Verdict::Yes),
    // It was given another count.
    (
        Some(2),
        &[FILL, LOOK],
        Verdict::No {
            clause: Clause::LooksAreMatched,
        },
    ),
    // It was given none.
    (
        None,
        &[FILL, LOOK],
        Verdict::No {
            clause: Clause::TreeIsLegal,
        },
    ),
    (
        Some(1),
        &[FILL, LOOK, ANOTHER_LOOK],
        Verdict::No {
            clause: Clause::OthersAreTrue,
        },
    ),
];

#[test]
fn journals_of_a_read(rt: HostRuntime) -> Result<(), Fail> {
    for (count, entries, verdict) in OF_A_READ {
        let found = verdict_on(&rt, rt.alloc(), READ_OF_A_COUNT, count, entries)?;
        assert_eq!(rt; found, verdict);
    }
    Ok(())
}
