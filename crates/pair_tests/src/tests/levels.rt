//! Scripts on two levels.

use super::{Given, told_by};
use call_rim::Status;
use pair_text::PairKind;
use std::test::Fail;

// Two ways of an L2 with three lines in turn: each use misses there, and the last one hits the L3.
const TWO_WAYS: &str = "machine sets=4 ways=4 l2_sets=1 l2_ways=2
tasks 1
write /mode exclusive
flush
access 1 0 0
access 1 0 64
access 1 0 128
access 1 0 0
";

const TWO_WAYS_REPORT: &str =
    "window 0 group 0 from 1: covered 4, l2 hits 0 private 0, l3 accesses 4 hits 1 private 1
group 0 /: l2 accesses 4 hits 0 misses 4, l3 accesses 4 hits 1 misses 3
l2 domain 0: valid 2 of 2
l3 domain 0: valid 3 of 16
total: commands 2 refused 0
";

// Four ways hold all three.
const FOUR_WAYS: &str = "machine sets=4 ways=4 l2_sets=1 l2_ways=4
tasks 1
write /mode exclusive
flush
access 1 0 0
access 1 0 64
access 1 0 128
access 1 0 0
";

const FOUR_WAYS_REPORT: &str =
    "window 0 group 0 from 1: covered 4, l2 hits 1 private 1, l3 accesses 3 hits 0 private 0
group 0 /: l2 accesses 4 hits 1 misses 3, l3 accesses 3 hits 0 misses 3
l2 domain 0: valid 3 of 4
l3 domain 0: valid 3 of 16
total: commands 2 refused 0
";

const REPORTS: [(&str, &str); 2] = [(TWO_WAYS, TWO_WAYS_REPORT), (FOUR_WAYS, FOUR_WAYS_REPORT)];

#[test]
fn scripts_have_their_reports(rt: HostRuntime) -> Result<(), Fail> {
    for (script, report) in REPORTS {
        let told = told_by(
            rt.alloc(),
            &Given::of(PairKind::Levels, &["--quiet"], script),
        )?;
        assert_eq!(rt; told.status, Status::Done);
        assert!(rt; told.has_journals);
        assert_eq!(rt; told.taken.as_slice(), report.as_bytes());
    }
    Ok(())
}

// Scripts with a mask that is past the ways of an L2, and how their reports begin.
const PAST_THE_L2: [(&str, &str); 2] = [
    (
        "machine ways=8 l2_ways=4\nwrite /schemata L2:0=10\nwrite /schemata L3:0=10\n",
        "0 write /schemata L2:0=10: EINVAL mask 10 out of range\n1 write /schemata L3:0=10: ok\n",
    ),
    (
        "machine sets=4 ways=4 l2_sets=1 l2_ways=4\nwrite /schemata L2:0=10\n",
        "0 write /schemata L2:0=10: EINVAL mask 10 out of range\n",
    ),
];

#[test]
fn each_side_has_its_ways(rt: HostRuntime) -> Result<(), Fail> {
    for (script, due) in PAST_THE_L2 {
        let told = told_by(rt.alloc(), &Given::of(PairKind::Levels, &[], script))?;
        assert_eq!(rt; told.status, Status::Done);
        assert!(rt; told.taken.as_slice().starts_with(due.as_bytes()));
    }
    Ok(())
}

// The usage line of each program, for words that ask for nothing.
const USAGE_LINES: [(PairKind, &str); 2] = [
    (PairKind::Cdp, "usage: resctrl_cdp [--quiet]\n"),
    (PairKind::Levels, "usage: resctrl_l2 [--quiet]\n"),
];

#[test]
fn other_words_are_told_the_usage(rt: HostRuntime) -> Result<(), Fail> {
    for (kind, line) in USAGE_LINES {
        let told = told_by(
            rt.alloc(),
            &Given::of(kind, &["--quiet", "--quiet"], TWO_WAYS),
        )?;
        assert_eq!(rt; told.status, Status::Usage);
        assert!(rt; !told.has_journals);
        assert_eq!(rt; told.taken.as_slice(), line.as_bytes());
    }
    Ok(())
}
