//! The most accesses that a script may have, one more, and a long script.

use crate::faults::{FOUR_ACCESSES, told};
use resctrl_top::Status;
use std::test::Fail;

#[test]
fn four_million_accesses_are_played(rt: HostRuntime) -> Result<(), Fail> {
    let most: &[u8] = b"machine\ntasks 1\nphase\nthread\nsweep 1 0 0 4000000 0\n";
    let more: &[u8] = b"machine\ntasks 1\nphase\nthread\nsweep 1 0 0 4000000 0\naccess 1 0 0\n";
    let report: &[u8] = b"group 0 /: accesses 4000000 hits 3999999 misses 1
domain 0: valid 1 of 512, rmid 0 1
total: commands 0 refused 0 accesses 4000000 hits 3999999 misses 1
";
    let played = told(&rt, rt.alloc(), &["step"], most)?;
    assert_eq!(rt; played.status, Status::Done);
    assert_eq!(rt; played.taken.as_slice(), report);
    let refused = told(&rt, rt.alloc(), &["step"], more)?;
    assert_eq!(rt; refused.status, Status::Refused);
    assert_eq!(rt;
        refused.taken.as_slice(),
        b"line 6: script too large\n".as_slice()
    );
    Ok(())
}

// Of four accesses to three lines, many more to the first of them, and one to a fourth.
const LONG_REPORT: &[u8] = b"group 0 /: accesses 100005 hits 100001 misses 4
domain 0: valid 4 of 4, rmid 0 4
total: commands 0 refused 0 accesses 100005 hits 100001 misses 4
";

#[test]
fn a_long_script_is_read_to_its_end(rt: HostRuntime) -> Result<(), Fail> {
    let mut script = Vec::from_slice(rt.alloc(), FOUR_ACCESSES)?;
    for _ in 0..100_000 {
        script.extend_from_slice(b"access 1 0 0\n")?;
    }
    script.extend_from_slice(b"access 1 0 192\n")?;
    let told = told(&rt, rt.alloc(), &["step"], &script)?;
    assert_eq!(rt; told.status, Status::Done);
    assert_eq!(rt; told.taken.as_slice(), LONG_REPORT);
    Ok(())
}
