//! Scripts on data and code masks.

use super::{Given, told_by};
use call_rim::Status;
use pair_text::PairKind;
use std::test::Fail;

// Data has two ways, in which its lines 1, 2, 3 and 1 miss; code has the two others. A line that is modified is used twice.
const TRACE: &str = "machine sets=1 ways=4 classes=4
tasks 1
write /schemata L3CODE:0=c
write /schemata L3DATA:0=3
write /mode exclusive
flush
trace 1 0
I  0,4
 L 40,8
 M 80,8
 S c0,8
I  0,4
 L 40,8
end
";

const REPORT: &str =
    "window 0 group 0 data ways 2 from 0: accesses 5 hits 1 covered 5 hits 1 private 1
window 0 group 0 code ways 2 from 0: accesses 2 hits 1 covered 2 hits 1 private 1
group 0 /: data accesses 5 hits 1 misses 4, code accesses 2 hits 1 misses 1
domain 0: valid 3 of 4
total: commands 4 refused 0
";

const COMMANDS: &str = "0 write /schemata L3CODE:0=c: ok
1 write /schemata L3DATA:0=3: ok
2 write /mode exclusive: ok
3 flush: ok
";

#[test]
fn a_quiet_report_has_no_commands(rt: HostRuntime) -> Result<(), Fail> {
    let told = told_by(rt.alloc(), &Given::of(PairKind::Cdp, &["--quiet"], TRACE))?;
    assert_eq!(rt; told.status, Status::Done);
    assert!(rt; told.has_journals);
    assert_eq!(rt; told.taken.as_slice(), REPORT.as_bytes());
    Ok(())
}

#[test]
fn commands_are_told_unless_the_report_is_quiet(rt: HostRuntime) -> Result<(), Fail> {
    let told = told_by(rt.alloc(), &Given::of(PairKind::Cdp, &[], TRACE))?;
    assert_eq!(rt; told.status, Status::Done);
    let due = format!(in rt.alloc(); "{COMMANDS}{REPORT}")?;
    assert_eq!(rt; told.taken.as_slice(), due.as_bytes());
    Ok(())
}

// Three classes of the machine make one group.
const ONE_GROUP: &str = "machine classes=3
mkdir /a
write /schemata L3:0=1
write /mode exclusive
";

const ONE_GROUP_COMMANDS: &[u8] = b"0 mkdir /a: ENOSPC out of CLOSIDs
1 write /schemata L3:0=1: EINVAL unknown resource name
2 write /mode exclusive: ok
group 0 /: ";

#[test]
fn a_class_takes_two_of_the_machine(rt: HostRuntime) -> Result<(), Fail> {
    let told = told_by(rt.alloc(), &Given::of(PairKind::Cdp, &[], ONE_GROUP))?;
    assert_eq!(rt; told.status, Status::Done);
    assert!(rt; told.taken.as_slice().starts_with(ONE_GROUP_COMMANDS));
    Ok(())
}

// A trace with a line that is none of lackey's, and two without an end: the input of one stops after its last line.
const BAD_TRACES: [(&str, &str); 3] = [
    (
        "machine sets=1 ways=4 classes=4
tasks 1
write /schemata L3CODE:0=c
write /schemata L3DATA:0=3
write /mode exclusive
flush
trace 1 0
I  0,4
 Q 0,4
 M 80,8
 S c0,8
I  0,4
 L 40,8
end
",
        "line 9: bad trace line\n",
    ),
    (
        "machine sets=1 ways=4 classes=4
tasks 1
write /schemata L3CODE:0=c
write /schemata L3DATA:0=3
write /mode exclusive
flush
trace 1 0
I  0,4
 L 40,8
 M 80,8
 S c0,8
I  0,4
 L 40,8
",
        "line 14: bad trace line\n",
    ),
    (
        "machine sets=1 ways=4 classes=4
tasks 1
trace 1 0
I  0,4",
        "line 5: bad trace line\n",
    ),
];

#[test]
fn bad_traces_are_refused(rt: HostRuntime) -> Result<(), Fail> {
    for (script, line) in BAD_TRACES {
        let told = told_by(rt.alloc(), &Given::of(PairKind::Cdp, &[], script))?;
        assert_eq!(rt; told.status, Status::Refused, "{line}");
        assert!(rt; !told.has_journals, "{line}");
        assert_eq!(rt; told.taken.as_slice(), line.as_bytes());
    }
    Ok(())
}

// The calls of the source and of the sink that fail, the status, and whether there are journals.
const FAILING: [(&[u32], &[u32], Status, bool); 2] = [
    (&[], &[1], Status::WriteFault, true),
    (&[1], &[1], Status::ReadFault, false),
];

#[test]
fn streams_that_fail_are_told(rt: HostRuntime) -> Result<(), Fail> {
    for (reads, writes, status, has_journals) in FAILING {
        let mut given = Given::of(PairKind::Cdp, &["--quiet"], TRACE);
        given.reads = reads;
        given.writes = writes;
        let told = told_by(rt.alloc(), &given)?;
        assert_eq!(rt; told.status, status);
        assert_eq!(rt; told.has_journals, has_journals);
        assert_eq!(rt; told.taken.len(), 0);
    }
    Ok(())
}
