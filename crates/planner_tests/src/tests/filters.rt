//! What filters write of traces.

use crate::tests::told_by;
use call_rim::Status;
use std::test::Fail;

// All lines are 0 0 1 2 1 2 0, of which the first is code.
const TRACE: &[u8] = b"I  0,4\n L 0,4\n M 7e,4\n S 0,4\n";

// In L1 of two sets of one way the second uses of 1 and 2 hit, and 2 evicts 0; in an L2 of one set of two ways the first use of 0 as
// data hits, since code used it.
const LEFT_BY_BOTH: &[u8] = b"I  0,64\n L 40,64\n L 80,64\n L 0,64\n";

#[test]
fn levels_write_their_misses(rt: HostRuntime) -> Result<(), Fail> {
    let words = ["filter", "--l1", "2x1", "--l2", "1x2"];
    let (status, taken) = told_by(rt.alloc(), &words, TRACE, 3, &[])?;
    assert_eq!(rt; status, Status::Done);
    assert_eq!(rt; taken.as_slice(), LEFT_BY_BOTH);
    Ok(())
}

#[test]
fn a_last_line_may_lack_its_newline(rt: HostRuntime) -> Result<(), Fail> {
    let (status, taken) = told_by(
        rt.alloc(),
        &["filter", "--l2", "1x1"],
        b" L 0,4\nI  40,1",
        64,
        &[],
    )?;
    assert_eq!(rt; status, Status::Done);
    assert_eq!(rt; taken.as_slice(), b" L 0,64\nI  40,64\n".as_slice());
    Ok(())
}

#[test]
fn what_comes_before_a_bad_line_is_written(rt: HostRuntime) -> Result<(), Fail> {
    let trace = b" L 0,4\nI  40\n S 0,4\n";
    let (status, taken) = told_by(rt.alloc(), &["filter", "--l1", "1x1"], trace, 64, &[])?;
    assert_eq!(rt; status, Status::Refused);
    assert_eq!(rt;
        taken.as_slice(),
        b" L 0,64\nline 2: bad trace line\n".as_slice()
    );
    Ok(())
}

const NO_FORMS: [&[&str]; 6] = [
    &["filter"],
    &["filter", "--l1"],
    &["filter", "--l1", "0x1"],
    &["filter", "--l2", "4x4", "--l1", "4x4"],
    &["filter", "--l1", "4x4", "--first"],
    &["filter", "4", "1"],
];

#[test]
fn a_filter_has_a_level(rt: HostRuntime) -> Result<(), Fail> {
    for words in NO_FORMS {
        let (status, _) = told_by(rt.alloc(), words, TRACE, 64, &[])?;
        assert_eq!(rt; status, Status::Usage);
    }
    Ok(())
}
