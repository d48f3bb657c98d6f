//! Reports with first uses.

use crate::tests::told_by;
use call_rim::Status;
use std::test::Fail;

// All lines are 0 0 1 2 1 2 0, of which the first is code: three different ones, as of data. Line 0 is the only one of code. In one way
// each use but the second misses, so the first uses are half of the misses, and of code all.
const TRACE: &[u8] = b"I  0,4\n L 0,4\n M 7e,4\n S 0,4\n";

const OF_ALL: &[u8] = b"data and code:
first uses 3
ways 1: accesses 7 hits 1 misses 6
data:
first uses 3
ways 1: accesses 6 hits 0 misses 6
code:
first uses 1
hint: most misses with one way are first uses
ways 1: accesses 1 hits 0 misses 1
";

// One line of two is 0 or 1: these are 0 0 1 1 0.
const OF_A_SAMPLE: &[u8] = b"sample: one of 2 lines, 1 sets
data and code:
first uses 2
hint: most misses with one way are first uses
ways 1: accesses 5 hits 2 misses 3
data:
first uses 2
hint: most misses with one way are first uses
ways 1: accesses 4 hits 1 misses 3
code:
first uses 1
hint: most misses with one way are first uses
ways 1: accesses 1 hits 0 misses 1
";

#[test]
fn first_uses_are_different_lines(rt: HostRuntime) -> Result<(), Fail> {
    let (status, taken) = told_by(rt.alloc(), &["curve", "1", "1", "--first"], TRACE, 7, &[])?;
    assert_eq!(rt; status, Status::Done);
    assert_eq!(rt; taken.as_slice(), OF_ALL);
    let words = ["curve", "3", "1", "--one-of", "2", "--first"];
    let (status, taken) = told_by(rt.alloc(), &words, TRACE, 7, &[])?;
    assert_eq!(rt; status, Status::Done);
    assert_eq!(rt; taken.as_slice(), OF_A_SAMPLE);
    Ok(())
}
