//! Plans of domains whose free ways are in several runs. The divisions were found by hand.

use crate::tests::told_by;
use call_rim::Status;
use std::test::Fail;

// Way 2 is of other hardware. The second group needs two ways side by side. In order of creation the first group would have one way of
// the lower run and the third one way of the upper run, or both one of the lower run, and no two side by side would be left for it
// behind the first: five misses. In any order the first and the third group share the lower run: three misses.
const TWO_RUNS: &[u8] = b"machine sets=1 ways=5 shareable=4
tasks 1 2
phase
thread
mkdir /turns
mkdir /one
write /turns/tasks 1
write /one/tasks 2
access 1 0 0
access 1 0 64
access 1 0 0
access 1 0 64
access 2 0 128
access 2 0 128
access 2 0 128
";

const TWO_RUNS_USED: &[u8] = b"domain 0 group 1 /turns:
ways 1: accesses 4 hits 0 misses 4
ways 2: accesses 4 hits 2 misses 2
ways 3: accesses 4 hits 2 misses 2
ways 4: accesses 4 hits 2 misses 2
ways 5: accesses 4 hits 2 misses 2
domain 0 group 2 /one:
ways 1: accesses 3 hits 2 misses 1
ways 2: accesses 3 hits 2 misses 1
ways 3: accesses 3 hits 2 misses 1
ways 4: accesses 3 hits 2 misses 1
ways 5: accesses 3 hits 2 misses 1
domain 0: misses 3
write /schemata L3:0=01
write /turns/schemata L3:0=18
write /one/schemata L3:0=02
write /mode exclusive
write /turns/mode exclusive
write /one/mode exclusive
";

// Every other way is of other hardware: sixteen runs of a way each have 65,536 states.
const MANY_RUNS: &[u8] = b"machine sets=1 ways=32 shareable=55555555
phase
thread
";

const MANY_RUNS_USED: &[u8] = b"domain 0: misses 0
domain 0: the groups were tried in order of creation only
write /schemata L3:0=00000002
write /mode exclusive
";

const RUNS: [(&[u8], &[u8]); 2] = [(TWO_RUNS, TWO_RUNS_USED), (MANY_RUNS, MANY_RUNS_USED)];

#[test]
fn groups_lie_in_any_order(rt: HostRuntime) -> Result<(), Fail> {
    for (script, plan) in RUNS {
        let (status, taken) = told_by(rt.alloc(), &["divide", "--used"], script, 64, &[])?;
        assert_eq!(rt; status, Status::Done);
        assert_eq!(rt; taken.as_slice(), plan);
    }
    Ok(())
}
