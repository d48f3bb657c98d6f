//! Each call of the source and of the sink fails in turn.

use crate::faults::{THEIR_REPORT, told_by};
use rc_stream::OpenGate;
use resctrl_top::Status;
use std::test::Fail;
use top_parts::USAGE;

// Four accesses. Its 73 bytes come in ten pieces of 8 and less, and an eleventh read finds the end.
const SWEEP: &[u8] =
    b"machine sets=1 ways=4\ntasks 1\nphase\nthread\nsweep 1 0 0 3 64\naccess 1 0 0\n";

const READS: [u32; 11] = [1, 2, 3, 4, 5, 6, 7, 8, 9, 10, 11];

// The calls of the sink, and how many bytes it took before each: the report goes in eight pieces of 16 and less, and then it is flushed.
const WRITES: [(u32, usize); 9] = [
    (1, 0),
    (2, 16),
    (3, 32),
    (4, 48),
    (5, 64),
    (6, 80),
    (7, 96),
    (8, 112),
    (9, 126),
];

// The commands that read a script.
const COMMANDS: [&str; 2] = ["step", "run"];

#[test]
fn each_read_may_fail(rt: HostRuntime) -> Result<(), Fail> {
    for command in COMMANDS {
        for call in READS {
            let told = told_by(&rt, rt.alloc(), &[command], SWEEP, &[call], &[], &OpenGate)?;
            assert_eq!(rt; told.status, Status::ReadFault, "{command} {call}");
            assert_eq!(rt; told.taken.len(), 0, "{command} {call}");
            assert!(rt; !told.has_journals);
        }
        let told = told_by(&rt, rt.alloc(), &[command], SWEEP, &[12], &[], &OpenGate)?;
        assert_eq!(rt; told.status, Status::Done);
        assert_eq!(rt; told.taken.as_slice(), THEIR_REPORT);
    }
    Ok(())
}

#[test]
fn each_write_may_fail(rt: HostRuntime) -> Result<(), Fail> {
    for command in COMMANDS {
        for (call, taken) in WRITES {
            let told = told_by(&rt, rt.alloc(), &[command], SWEEP, &[], &[call], &OpenGate)?;
            assert_eq!(rt; told.status, Status::WriteFault, "{command} {call}");
            assert_eq!(rt; told.taken.len(), taken, "{command} {call}");
            assert!(rt; THEIR_REPORT.starts_with(&told.taken));
            assert!(rt; told.has_journals);
        }
        let told = told_by(&rt, rt.alloc(), &[command], SWEEP, &[], &[10], &OpenGate)?;
        assert_eq!(rt; told.status, Status::Done);
        assert_eq!(rt; told.taken.as_slice(), THEIR_REPORT);
        assert!(rt; told.has_journals);
    }
    Ok(())
}

const TWICE: &[&str] = &["step", "--json", "--json"];

const GENERATED: &[&str] = &["gen", "1", "--quiet"];

// Words and a script, the call of the sink that fails, how many bytes it took before, and whether there are journals.
const OTHERS: [(&[&str], &[u8], u32, usize, bool); 7] = [
    (TWICE, SWEEP, 1, 0, false),
    (TWICE, SWEEP, 2, 16, false),
    (&["run", "7"], SWEEP, 1, 0, false),
    (GENERATED, SWEEP, 1, 0, true),
    (GENERATED, SWEEP, 3, 32, true),
    (&["step"], b"", 1, 0, false),
    (&["run"], b"", 2, 16, false),
];

// A usage line, a generated script and a refusal are written as a report is; and the source is not called by words that need none.
#[test]
fn other_ends_may_fail(rt: HostRuntime) -> Result<(), Fail> {
    for (texts, script, call, taken, has_journals) in OTHERS {
        let told = told_by(&rt, rt.alloc(), texts, script, &[], &[call], &OpenGate)?;
        assert_eq!(rt; told.status, Status::WriteFault);
        assert_eq!(rt; told.taken.len(), taken);
        assert_eq!(rt; told.has_journals, has_journals);
    }
    let told = told_by(&rt, rt.alloc(), TWICE, SWEEP, &[1], &[], &OpenGate)?;
    assert_eq!(rt; told.status, Status::Usage);
    assert_eq!(rt; told.taken.as_slice(), USAGE.as_bytes());
    let told = told_by(&rt, rt.alloc(), GENERATED, SWEEP, &[1], &[], &OpenGate)?;
    assert_eq!(rt; told.status, Status::Done);
    Ok(())
}
