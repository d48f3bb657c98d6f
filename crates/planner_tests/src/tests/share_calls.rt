//! Streams of several programs with their reports.

use crate::tests::told_by;
use call_rim::Status;
use std::test::Fail;

// The first program uses lines 0 2 0 2, which share a set of two, and the second 0 1 1 0, of which line 1 is alone in the other set.
// The last line of the text has no newline.
const STREAM: &[u8] =
    b"==1== Lackey\nturn 0\n L 0,4\r\n L 80,4\nturn 01\nI  0,4\n S 40,4\n\nturn 0\n L 0,4\n L 80,4\nturn 1\n L 40,4\nI  0,4";

// The set of two ways has in turn 0 2 of the first program, 0 of the second, 0 2 and again 0: no use of it hits. Line 1 hits once.
const TWO_WAYS: &[u8] = b"program 0:
ways 1: accesses 4 hits 0 misses 4
ways 2: accesses 4 hits 2 misses 2
program 1:
ways 1: accesses 4 hits 2 misses 2
ways 2: accesses 4 hits 2 misses 2
shared 0: misses 4
shared 1: misses 3
shared: misses 7
shared: weighted misses 13
divided 0: ways 1 misses 4
divided 1: ways 1 misses 2
divided: misses 6
divided: weighted misses 10
divide: sharing is worse
";

// With three ways all lines of a set have room, however the ways are had.
const THREE_WAYS: &[u8] = b"program 0:
ways 1: accesses 4 hits 0 misses 4
ways 2: accesses 4 hits 2 misses 2
ways 3: accesses 4 hits 2 misses 2
program 1:
ways 1: accesses 4 hits 2 misses 2
ways 2: accesses 4 hits 2 misses 2
ways 3: accesses 4 hits 2 misses 2
shared 0: misses 2
shared 1: misses 2
shared: misses 4
shared: weighted misses 8
divided 0: ways 2 misses 2
divided 1: ways 1 misses 2
divided: misses 4
divided: weighted misses 8
do not divide: sharing is no worse
";

// Three times 3 of 4 uses of the second program are worse than 4 of 4 of the first.
const TWO_WAYS_BY_RATIO: &[u8] = b"program 0:
ways 1: accesses 4 hits 0 misses 4
ways 2: accesses 4 hits 2 misses 2
program 1:
ways 1: accesses 4 hits 2 misses 2
ways 2: accesses 4 hits 2 misses 2
shared 0: misses 4
shared 1: misses 3
shared: misses 7
shared: worst ratio 9 of 4
divided 0: ways 1 misses 4
divided 1: ways 1 misses 2
divided: misses 6
divided: worst ratio 6 of 4
divide: sharing is worse
";

const TOO_FEW_WAYS: &[u8] = b"program 0:
ways 1: accesses 4 hits 0 misses 4
ways 2: accesses 4 hits 2 misses 2
program 1:
ways 1: accesses 4 hits 2 misses 2
ways 2: accesses 4 hits 2 misses 2
shared 0: misses 4
shared 1: misses 3
shared: misses 7
shared: weighted misses 7
divided: the ways do not suffice
";

// With an L1 of one line the second program's uses of line 1 as data and of line 0 as code hit when they come again.
const BEHIND_AN_L1: &[u8] = b"program 0:
ways 1: accesses 4 hits 0 misses 4
ways 2: accesses 4 hits 2 misses 2
program 1:
ways 1: accesses 2 hits 0 misses 2
ways 2: accesses 2 hits 0 misses 2
shared 0: misses 4
shared 1: misses 2
shared: misses 6
shared: weighted misses 10
divided 0: ways 1 misses 4
divided 1: ways 1 misses 2
divided: misses 6
divided: weighted misses 10
do not divide: sharing is no worse
";

// Words, and what they report of the stream.
const REPORTS: [(&[&str], &[u8]); 5] = [
    (&["share", "2", "2", "1:1", "3:1"], TWO_WAYS),
    (&["share", "2", "3", "1:1", "03:01"], THREE_WAYS),
    (
        &["share", "2", "2", "--ratio", "1:1", "3:1"],
        TWO_WAYS_BY_RATIO,
    ),
    (&["share", "2", "2", "1:2", "1:1"], TOO_FEW_WAYS),
    (
        &["share", "2", "2", "--l1", "1x1", "1:1", "3:1"],
        BEHIND_AN_L1,
    ),
];

#[test]
fn streams_have_their_reports(rt: HostRuntime) -> Result<(), Fail> {
    for (words, report) in REPORTS {
        for piece in [1, 7, 4096] {
            let (status, taken) = told_by(rt.alloc(), words, STREAM, piece, &[])?;
            assert_eq!(rt; status, Status::Done);
            assert_eq!(rt; taken.as_slice(), report);
        }
    }
    Ok(())
}

// An input, the calls of the source that fail, one for each byte, and the status and what is written:
// a use before the first turn, a turn of a third program and a line that is none of a trace; the line of the turn, of 7 bytes, has
// ended when the eighth call fails, and has not when the seventh does.
const ENDINGS: [(&[u8], &[u32], Status, &[u8]); 5] = [
    (
        b"\n L 0,4\nturn 0\n",
        &[],
        Status::Refused,
        b"line 2: bad trace line\n",
    ),
    (
        b"turn 1\n L 0,4\nturn 2\n",
        &[],
        Status::Refused,
        b"line 3: bad trace line\n",
    ),
    (
        b"turn 0\nno trace",
        &[],
        Status::Refused,
        b"line 2: bad trace line\n",
    ),
    (
        b"turn 2\nturn 0\n",
        &[8],
        Status::Refused,
        b"line 1: bad trace line\n",
    ),
    (b"turn 2\nturn 0\n", &[7], Status::ReadFault, b""),
];

#[test]
fn what_is_no_stream_is_told(rt: HostRuntime) -> Result<(), Fail> {
    for (input, failing, due, line) in ENDINGS {
        let (status, taken) = told_by(
            rt.alloc(),
            &["share", "2", "2", "1:1", "3:1"],
            input,
            1,
            failing,
        )?;
        assert_eq!(rt; status, due);
        assert_eq!(rt; taken.as_slice(), line);
    }
    Ok(())
}
