//! Scripts with their plans in them. Nothing of what is added was taken from the program: the lines are those of the plans.

use crate::tests::told_by;
use call_rim::Status;
use std::test::Fail;

// The last line has no newline. The plan is that of two groups without uses: the lowest ways that there are.
const OPEN_LINE: &[u8] = b"machine domains=2 cpus=2 sets=1 ways=4 min=2
phase
thread
mkdir /own
write /own/mode shareable";

const OPEN_LINE_APPLIED: &[u8] = b"machine domains=2 cpus=2 sets=1 ways=4 min=2
phase
thread
mkdir /own
write /own/mode shareable
phase
thread
write /schemata L3:0=3;1=3
write /own/schemata L3:0=c;1=c
write /mode exclusive
write /own/mode exclusive
";

// An exclusive group has to become shareable before the masks are exchanged. The carriage return and the comment stay.
const EXCLUSIVE_GROUP: &[u8] = b"machine sets=1 ways=2\r
phase
thread
mkdir /own
write /schemata L3:0=2
write /own/schemata L3:0=1
write /own/mode exclusive
# the end
";

const EXCLUSIVE_GROUP_APPLIED: &[u8] = b"machine sets=1 ways=2\r
phase
thread
mkdir /own
write /schemata L3:0=2
write /own/schemata L3:0=1
write /own/mode exclusive
# the end
phase
thread
write /own/mode shareable
write /schemata L3:0=1
write /own/schemata L3:0=2
write /mode exclusive
write /own/mode exclusive
";

// One way is too few for two groups, in either domain.
const ONE_WAY: &[u8] = b"machine domains=2 cpus=2 sets=1 ways=1
phase
thread
mkdir /other
";

const ONE_WAY_APPLIED: &[u8] = b"machine domains=2 cpus=2 sets=1 ways=1
phase
thread
mkdir /other
# domain 0: no division
# domain 1: no division
";

// A script without phases has the default group alone.
const NO_PHASE: &[u8] = b"machine sets=1 ways=2";

const NO_PHASE_APPLIED: &[u8] = b"machine sets=1 ways=2
phase
thread
write /schemata L3:0=1
write /mode exclusive
";

const APPLIED: [(&[u8], &[u8]); 4] = [
    (OPEN_LINE, OPEN_LINE_APPLIED),
    (EXCLUSIVE_GROUP, EXCLUSIVE_GROUP_APPLIED),
    (ONE_WAY, ONE_WAY_APPLIED),
    (NO_PHASE, NO_PHASE_APPLIED),
];

#[test]
fn scripts_get_their_plans(rt: HostRuntime) -> Result<(), Fail> {
    for (script, text) in APPLIED {
        let (status, taken) = told_by(rt.alloc(), &["divide", "--apply"], script, 16, &[])?;
        assert_eq!(rt; status, Status::Done);
        assert_eq!(rt; taken.as_slice(), text);
    }
    Ok(())
}

#[test]
fn what_is_no_script_gets_no_plan(rt: HostRuntime) -> Result<(), Fail> {
    let words = ["divide", "--apply"];
    let (status, taken) = told_by(rt.alloc(), &words, b"machine\nmkdir /a\n", 1, &[])?;
    assert_eq!(rt; status, Status::Refused);
    assert_eq!(rt; taken.as_slice(), b"line 2: out of place\n".as_slice());
    Ok(())
}
