//! Words of `share` that are no form.

use crate::tests::curve_calls::USAGE_LINE;
use crate::tests::told_by;
use call_rim::Status;
use std::test::Fail;

const NO_FORMS: [&[&str]; 21] = [
    &["share"],
    &["share", "2"],
    &["share", "2", "2"],
    &["share", "2", "2", "--ratio"],
    &["share", "0", "2", "1:1"],
    &["share", "1048577", "2", "1:1"],
    &["share", "2", "0", "1:1"],
    &["share", "2", "33", "1:1"],
    &["share", "2", "2", "0:1"],
    &["share", "2", "2", "1001:1"],
    &["share", "2", "2", "1:0"],
    &["share", "2", "2", "1:33"],
    &["share", "2", "2", "1"],
    &["share", "2", "2", "1:"],
    &["share", "2", "2", ":1"],
    &["share", "2", "2", "1:1:1"],
    &["share", "2", "2", "1:1", "--ratio"],
    &["share", "2", "2", "--ratio", "--ratio", "1:1"],
    &["share", "2", "2", "--l1", "2", "1:1"],
    &["share", "2", "2", "--l2", "2x2", "--l1", "2x2", "1:1"],
    &["Share", "2", "2", "1:1"],
];

#[test]
fn other_words_are_no_form_of_share(rt: HostRuntime) -> Result<(), Fail> {
    for words in NO_FORMS {
        let (status, taken) = told_by(rt.alloc(), words, b"turn 0\n L 0,4\n", 64, &[])?;
        assert_eq!(rt; status, Status::Usage);
        assert_eq!(rt; taken.as_slice(), USAGE_LINE);
    }
    Ok(())
}

#[test]
fn thirty_two_programs_are_the_most(rt: HostRuntime) -> Result<(), Fail> {
    let mut words = vec![in rt.alloc(); "share", "1", "1", "1000:1"]?;
    for _ in 1..32 {
        words.push("1:1")?;
    }
    let (status, _) = told_by(rt.alloc(), &words, b"turn 31\n", 64, &[])?;
    assert_eq!(rt; status, Status::Done);
    words.push("1:1")?;
    let (status, taken) = told_by(rt.alloc(), &words, b"turn 31\n", 64, &[])?;
    assert_eq!(rt; status, Status::Usage);
    assert_eq!(rt; taken.as_slice(), USAGE_LINE);
    Ok(())
}
