//! Texts that are no scripts, with what is told.

use crate::tests::{bad_lines, bad_ops, machines, told};
use resctrl_top::Status;
use std::alloc::Global;
use std::process::Abort;
use std::test::Fail;

/// What stands before a line, what is told, and such lines. Each stands last, with and without the end of a line.
pub(crate) type BadLines = (&'static str, &'static str, &'static str);

// Scripts with what is told, which have no such line, or end in their own way.
const WHOLE: [(&str, &str); 5] = [
    ("", "line 1: no machine line"),
    ("\n", "line 2: no machine line"),
    ("# nothing\r\n \t\n", "line 3: no machine line"),
    ("machine\r", "line 1: bad byte"),
    (
        "machine\nphase\nthread\nflush x\ntick 1\n",
        "line 4: bad argument",
    ),
];

/// Plays a script that is refused, and compares what is told.
pub(crate) fn is_refused(
    rt: &impl Abort,
    alloc: Global,
    script: &[u8],
    want: &str,
) -> Result<(), Fail> {
    let (status, taken) = told(alloc, script)?;
    assert_eq!(rt; status, Status::Refused, "{want}");
    let want = format!(in alloc; "{want}\n")?;
    assert_eq!(rt; taken.as_slice(), want.as_bytes());
    Ok(())
}

// Plays a line after what stands before it, with each end that a line may have.
fn is_refused_with_each_end(
    rt: &impl Abort,
    alloc: Global,
    before: &str,
    line: &str,
    want: &str,
) -> Result<(), Fail> {
    for end in ["", "\n", "\r\n"] {
        let script = format!(in alloc; "{before}{line}{end}")?;
        is_refused(rt, alloc, script.as_bytes(), want)?;
    }
    Ok(())
}

// Plays each of these lines after what stands before it.
fn are_refused(rt: &impl Abort, alloc: Global, rows: &[BadLines]) -> Result<(), Fail> {
    for (before, want, lines) in rows {
        for line in lines.split('\n') {
            is_refused_with_each_end(rt, alloc, before, line, want)?;
        }
    }
    Ok(())
}

// A script that is played well, in parts: its machine, what opens its thread, and its two ops.
const MACHINE: &str = "machine sets=1 ways=4\n";

const OPENING: &str = "tasks 1\nphase\nthread\n";

const SWEEP: &str = "sweep 1 0 0 3 64\n";

const ACCESS: &str = "access 1 0 0\n";

// What stands in place of each part, and what is told: the script that is cut within its fifth line, a machine with too many ways,
// and an access of a task that is not declared.
const SPOILED: [([&str; 4], &str); 4] = [
    ([MACHINE, OPENING, "swee", ""], "line 5: unknown word"),
    (
        [MACHINE, OPENING, "sweep 1 0 0 3", ""],
        "line 5: bad argument",
    ),
    (
        ["machine sets=1 ways=33\n", OPENING, SWEEP, ACCESS],
        "line 1: bad machine line",
    ),
    (
        [MACHINE, OPENING, SWEEP, "access 2 0 0\n"],
        "line 6: unknown task",
    ),
];

#[test]
fn one_fault_in_a_script_is_told(rt: HostRuntime) -> Result<(), Fail> {
    for ([machine, opening, sweep, access], want) in SPOILED {
        let script = format!(in rt.alloc(); "{machine}{opening}{sweep}{access}")?;
        is_refused(&rt, rt.alloc(), script.as_bytes(), want)?;
    }
    Ok(())
}

#[test]
fn bad_scripts_are_refused(rt: HostRuntime) -> Result<(), Fail> {
    for (script, want) in WHOLE {
        is_refused(&rt, rt.alloc(), script.as_bytes(), want)?;
    }
    Ok(())
}

#[test]
fn bad_lines_are_refused(rt: HostRuntime) -> Result<(), Fail> {
    for rows in [
        bad_lines::ROWS.as_slice(),
        bad_ops::ROWS.as_slice(),
        machines::BAD.as_slice(),
    ] {
        are_refused(&rt, rt.alloc(), rows)?;
    }
    Ok(())
}
