//! Reports of what first levels leave.

use crate::tests::told_by;
use call_rim::Status;
use std::test::Fail;

// All lines are 0 0 1 2 1 2 0, of which the first is code.
const TRACE: &[u8] = b"I  0,4\n L 0,4\n M 7e,4\n S 0,4\n";

// In L1 of two sets of one way the second uses of 1 and 2 hit, and 2 evicts 0: they leave 0 0 1 2 0, of which the first is code. In the L2
// the use of 0 as data hits, since code used it, and the last one does not: 0 1 2 0 are left.
const BEHIND_BOTH: &[u8] = b"l1: 2 sets of 1 ways
l2: 1 sets of 2 ways
data and code:
ways 1: accesses 4 hits 0 misses 4
ways 2: accesses 4 hits 0 misses 4
ways 3: accesses 4 hits 1 misses 3
data:
ways 1: accesses 3 hits 0 misses 3
ways 2: accesses 3 hits 0 misses 3
ways 3: accesses 3 hits 0 misses 3
code:
ways 1: accesses 1 hits 0 misses 1
ways 2: accesses 1 hits 0 misses 1
ways 3: accesses 1 hits 0 misses 1
";

// An L2 alone sees all uses, and leaves 0 1 2 0, of which the first is code. One line of two is 0 or 1: these are 0 1 0. The L2 of the
// sample 0 0 1 1 0 alone would leave 0 1.
const SAMPLE_BEHIND_AN_L2: &[u8] = b"l2: 1 sets of 2 ways
sample: one of 2 lines, 1 sets
data and code:
first uses 2
hint: most misses with one way are first uses
ways 1: accesses 3 hits 0 misses 3
data:
first uses 2
hint: most misses with one way are first uses
ways 1: accesses 2 hits 0 misses 2
code:
first uses 1
hint: most misses with one way are first uses
ways 1: accesses 1 hits 0 misses 1
";

// Code and data use line 0 in turn, each in an L1 of its own.
const IN_TURN: &[u8] = b"I  0,4\n L 0,4\nI  0,4\n S 0,4\n";

const BEHIND_AN_L1: &[u8] = b"l1: 1 sets of 1 ways
data and code:
ways 1: accesses 2 hits 1 misses 1
data:
ways 1: accesses 1 hits 0 misses 1
code:
ways 1: accesses 1 hits 0 misses 1
";

#[test]
fn levels_leave_their_misses(rt: HostRuntime) -> Result<(), Fail> {
    let words = ["curve", "1", "3", "--l1", "2x1", "--l2", "1x2"];
    let (status, taken) = told_by(rt.alloc(), &words, TRACE, 7, &[])?;
    assert_eq!(rt; status, Status::Done);
    assert_eq!(rt; taken.as_slice(), BEHIND_BOTH);
    let words = ["curve", "1", "1", "--l1", "01x1"];
    let (status, taken) = told_by(rt.alloc(), &words, IN_TURN, 7, &[])?;
    assert_eq!(rt; status, Status::Done);
    assert_eq!(rt; taken.as_slice(), BEHIND_AN_L1);
    Ok(())
}

#[test]
fn a_sample_is_taken_of_what_levels_leave(rt: HostRuntime) -> Result<(), Fail> {
    let words = ["curve", "3", "1", "--l2", "1x2", "--one-of", "2", "--first"];
    let (status, taken) = told_by(rt.alloc(), &words, TRACE, 7, &[])?;
    assert_eq!(rt; status, Status::Done);
    assert_eq!(rt; taken.as_slice(), SAMPLE_BEHIND_AN_L2);
    Ok(())
}
