//! Journals whose slices have more entries than the script weighs: they are judged part by part, and let go of.

use crate::tests::calls::told_by;
use crate::tests::checks::judged;
use check_top::CheckStatus;
use std::test::Fail;

// A script that weighs 12, and its first command.
const HEAD: &str = "machine domains=3 cpus=3 sets=1 ways=4 rmids=1
tasks 1
phase
thread
flush
read /mon_data/mon_L3_00/llc_occupancy
access 1 0 0
journal 1
tree 0 0 0 0 0
";

// The entry of the flush, six times.
const FLUSHES: &str = "flush 0 0 1
flush 0 0 1
flush 0 0 1
flush 0 0 1
flush 0 0 1
flush 0 0 1
";

// The count that the read was given, how many entries the first slice has, those after its flushes, how many the last one has, all of
// them, and what a check says. With the six of the slice between them the first has more entries than the script weighs, so both are
// judged before the last one is read.
const CHECKS: [(u32, u32, &str, u32, &str, &str); 8] = [
    (0, 7, "look 0 1 1 0 0\n", 1, "flush 0 0 1\n", "no D15.2\n"),
    (1, 7, "look 0 1 1 0 0\n", 1, "flush 0 0 1\n", "no D14\n"),
    // Of two looks of one command the first decides.
    (
        0,
        9,
        "look 0 1 1 0 0\naccess 0 2 1 0 0 15 0 0 0\nlook 0 1 1 0 1\n",
        1,
        "flush 0 0 1\n",
        "no D15.2\n",
    ),
    (
        1,
        9,
        "look 0 1 1 0 0\naccess 0 2 1 0 0 15 0 0 0\nlook 0 1 1 0 1\n",
        1,
        "flush 0 0 1\n",
        "no D14\n",
    ),
    // The earliest clause that is false of either part, whichever was judged first.
    (
        0,
        8,
        "look 0 1 1 0 0\naccess 0 2 1 0 0 15 1 0 0\n",
        1,
        "look 0 1 1 0 1\n",
        "no D11\n",
    ),
    (0, 7, "look 0 1 1 0 1\n", 1, "look 0 1 1 0 0\n", "no D11\n"),
    (
        0,
        7,
        "look 0 1 1 0 0\n",
        1,
        "look 0 1 1 0 0\n",
        "no D13.2\n",
    ),
    (
        0,
        8,
        "look 0 1 1 0 0\naccess 0 2 1 0 0 15 1 0 0\n",
        1,
        "look 0 1 1 0 0\n",
        "no D13.1\n",
    ),
];

#[test]
fn crowded_slices_are_judged(rt: HostRuntime) -> Result<(), Fail> {
    for (count, first, entries, last, left, line) in CHECKS {
        let input = format!(in rt.alloc();
            "{HEAD}tree 0 1 0 0 1 {count}\nslice 0 0 {first}\n{FLUSHES}{entries}slice 1 0 6\n{FLUSHES}slice 2 0 {last}\n{left}end\n"
        )?;
        let (status, has_journals, taken) = told_by(rt.alloc(), &["check"], &input, &[], &[])?;
        assert_eq!(rt; status, CheckStatus::No, "{input}");
        assert!(rt; has_journals, "{input}");
        assert_eq!(rt; taken.as_slice(), line.as_bytes(), "{input}");
        assert!(rt; input.len() < 1000);
        let told = judged(rt.alloc(), Vec::from_slice(rt.alloc(), input.as_bytes())?)?;
        assert_eq!(rt; told.as_slice(), line.as_bytes(), "{input}");
    }
    Ok(())
}
