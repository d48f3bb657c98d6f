//! Traces with their reports, and words that are no form.

use crate::tests::told_by;
use call_rim::Status;
use std::test::Fail;

// All lines are 0 0 1 2 1 2 0: the use of 7e to 81 is one of lines 1 and 2. The last line of the text has no newline.
const TRACE: &[u8] = b"==1== Lackey\nI  0,4\r\n L 0,4\n M 7e,4\n S 0,4";

const REPORT: &[u8] = b"data and code:
ways 1: accesses 7 hits 1 misses 6
ways 2: accesses 7 hits 3 misses 4
data:
ways 1: accesses 6 hits 0 misses 6
ways 2: accesses 6 hits 2 misses 4
code:
ways 1: accesses 1 hits 0 misses 1
ways 2: accesses 1 hits 0 misses 1
";

// In caches of three sets each of the three lines is alone in its own.
const REPORT_OF_THREE_SETS: &[u8] = b"data and code:
ways 1: accesses 7 hits 4 misses 3
data:
ways 1: accesses 6 hits 3 misses 3
code:
ways 1: accesses 1 hits 0 misses 1
";

const PIECES: [usize; 3] = [1, 7, 4096];

#[test]
fn traces_have_their_curves(rt: HostRuntime) -> Result<(), Fail> {
    for piece in PIECES {
        let (status, taken) = told_by(rt.alloc(), &["curve", "1", "02"], TRACE, piece, &[])?;
        assert_eq!(rt; status, Status::Done);
        assert_eq!(rt; taken.as_slice(), REPORT);
    }
    let (status, taken) = told_by(rt.alloc(), &["curve", "3", "1"], TRACE, 64, &[])?;
    assert_eq!(rt; status, Status::Done);
    assert_eq!(rt; taken.as_slice(), REPORT_OF_THREE_SETS);
    Ok(())
}

// An input, how many bytes of it come at once, the calls of the source that fail, and the status and what is written.
type Ending = (&'static [u8], usize, &'static [u32], Status, &'static [u8]);

// The bad line of eight bytes has ended when the ninth call fails, and has not when the eighth does.
const ENDINGS: [Ending; 4] = [
    (
        b"\n Q 0,4\nI  0,4",
        1,
        &[],
        Status::Refused,
        b"line 2: bad trace line\n",
    ),
    (
        b"\n Q 0,4\nI  0,4",
        1,
        &[9],
        Status::Refused,
        b"line 2: bad trace line\n",
    ),
    (b"\n Q 0,4\nI  0,4", 1, &[8], Status::ReadFault, b""),
    (TRACE, 8, &[2], Status::ReadFault, b""),
];

#[test]
fn what_is_no_trace_is_told(rt: HostRuntime) -> Result<(), Fail> {
    for (input, piece, failing, due, text) in ENDINGS {
        let (status, taken) = told_by(rt.alloc(), &["curve", "4", "1"], input, piece, failing)?;
        assert_eq!(rt; status, due);
        assert_eq!(rt; taken.as_slice(), text);
    }
    Ok(())
}

const NO_FORMS: [&[&str]; 55] = [
    &["curve", "1048577", "1"],
    &["curve", "4294967297", "1"],
    &["curve", "0", "1"],
    &["curve", "1", "0"],
    &["curve", "1", "33"],
    &["curve", "1", "-1"],
    &["Curve", "1", "1"],
    &["divide", "1", "1"],
    &["curve", "1"],
    &["divide", "1"],
    &["curve", "4", "1", "--one-of", "5"],
    &["curve", "4", "1", "--one-of", "0"],
    &["curve", "4", "1", "--one-of", "-1"],
    &["curve", "4", "1", "--one-of", ""],
    &["curve", "4", "1", "--one_of", "2"],
    &["curve", "4", "1", "--one-of"],
    &["curve", "4", "33", "--one-of", "2"],
    &["curve", "4", "1", "--one-of", "2", "--one-of", "2"],
    &["divide", "4", "1", "--one-of", "2"],
    &["curve", "4", "1", "--First"],
    &["curve", "4", "1", "--first", "--first"],
    &["curve", "4", "1", "--first", "--one-of", "2"],
    &["curve", "4", "1", "--one-of", "2", "--one-of"],
    &["curve", "4", "1", "--scaled"],
    &["curve", "4", "1", "--l1", "4x4", "--scaled"],
    &["curve", "4", "1", "--scaled", "--one-of", "2"],
    &["curve", "4", "1", "--one-of", "2", "--scaled", "--scaled"],
    &["curve", "4", "1", "--one-of", "2", "--first", "--scaled"],
    &["curve", "4", "1", "--l1"],
    &["curve", "4", "1", "--l1", "0x1"],
    &["curve", "4", "1", "--l1", "1048577x1"],
    &["curve", "4", "1", "--l1", "4x0"],
    &["curve", "4", "1", "--l1", "4x33"],
    &["curve", "4", "1", "--l1", "4"],
    &["curve", "4", "1", "--l1", "4X4"],
    &["curve", "4", "1", "--l1", "4x4x4"],
    &["curve", "4", "1", "--l1", "x4"],
    &["curve", "4", "1", "--l2", "4x"],
    &["curve", "4", "1", "--l1", "4x4", "--l1", "4x4"],
    &["curve", "4", "1", "--l2", "4x4", "--l1", "4x4"],
    &["curve", "4", "1", "--one-of", "2", "--l2", "4x4"],
    &["curve", "4", "1", "--first", "--l1", "4x4"],
    &["divide", "4", "1", "--l1", "4x4"],
    &["divide", "--compared"],
    &["divide", "--compare", "--compare"],
    &["curve", "--compare"],
    &["curve", "--used"],
    &["divide", "--used", "--compare"],
    &["divide", "--used", "--used"],
    &["divide", "--Used"],
    &["divide", "--compare", "--used", "1"],
    &["divide", "--apply", "--used"],
    &["divide", "--apply", "--apply"],
    &["divide", "--compare", "--apply"],
    &["curve", "--apply"],
];

pub(crate) const USAGE_LINE: &[u8] =
    b"usage: resctrl_plan curve SETS WAYS [--l1 SETSxWAYS] [--l2 SETSxWAYS] [--one-of N [--scaled]] [--first] | filter [--l1 SETSxWAYS] [--l2 SETSxWAYS] | divide [--compare] [--used] | divide --apply | share SETS WAYS [--l1 SETSxWAYS] [--l2 SETSxWAYS] [--ratio] WEIGHT:LEAST ..\n";

#[test]
fn other_words_are_no_form(rt: HostRuntime) -> Result<(), Fail> {
    for words in NO_FORMS {
        let (status, taken) = told_by(rt.alloc(), words, TRACE, 64, &[])?;
        assert_eq!(rt; status, Status::Usage);
        assert_eq!(rt; taken.as_slice(), USAGE_LINE);
    }
    Ok(())
}
