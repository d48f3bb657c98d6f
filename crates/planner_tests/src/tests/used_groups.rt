//! Plans that list only the groups that have uses in a domain. The counts were made by hand.

use crate::tests::told_by;
use call_rim::Status;
use std::test::Fail;

// In domain 0 only the first group uses lines, one of them twice, and in domain 1 only the second one, once.
const A_GROUP_IN_EACH_DOMAIN: &[u8] = b"machine domains=2 cpus=2 sets=1 ways=3
tasks 1 2
phase
thread
mkdir /a
mkdir /b
write /a/tasks 1
write /b/tasks 2
access 1 0 0
access 1 0 64
access 1 0 0
access 2 1 0
";

const A_GROUP_IN_EACH_DOMAIN_USED: &[u8] = b"domain 0 group 1 /a:
ways 1: accesses 3 hits 0 misses 3
ways 2: accesses 3 hits 1 misses 2
ways 3: accesses 3 hits 1 misses 2
domain 0: misses 3
domain 1 group 2 /b:
ways 1: accesses 1 hits 0 misses 1
ways 2: accesses 1 hits 0 misses 1
ways 3: accesses 1 hits 0 misses 1
domain 1: misses 1
write /schemata L3:0=1;1=1
write /a/schemata L3:0=2;1=2
write /b/schemata L3:0=4;1=4
write /mode exclusive
write /a/mode exclusive
write /b/mode exclusive
";

// As it is played all groups have all ways, and no line of a domain is evicted.
const A_GROUP_IN_EACH_DOMAIN_COMPARED: &[u8] = b"domain 0 group 1 /a:
ways 1: accesses 3 hits 0 misses 3
ways 2: accesses 3 hits 1 misses 2
ways 3: accesses 3 hits 1 misses 2
domain 0: misses 3
domain 0 as it is: misses 2
domain 0 shared: misses 2
domain 1 group 2 /b:
ways 1: accesses 1 hits 0 misses 1
ways 2: accesses 1 hits 0 misses 1
ways 3: accesses 1 hits 0 misses 1
domain 1: misses 1
domain 1 as it is: misses 1
domain 1 shared: misses 1
write /schemata L3:0=1;1=1
write /a/schemata L3:0=2;1=2
write /b/schemata L3:0=4;1=4
write /mode exclusive
write /a/mode exclusive
write /b/mode exclusive
";

// No group has uses, and there is no division.
const NO_USES: &[u8] = b"machine sets=1 ways=1
phase
thread
mkdir /other
";

const NO_USES_USED: &[u8] = b"domain 0: no division\n";

const USED: [(&[&str], &[u8], &[u8]); 3] = [
    (
        &["divide", "--used"],
        A_GROUP_IN_EACH_DOMAIN,
        A_GROUP_IN_EACH_DOMAIN_USED,
    ),
    (
        &["divide", "--compare", "--used"],
        A_GROUP_IN_EACH_DOMAIN,
        A_GROUP_IN_EACH_DOMAIN_COMPARED,
    ),
    (&["divide", "--used"], NO_USES, NO_USES_USED),
];

#[test]
fn groups_without_uses_are_left_out(rt: HostRuntime) -> Result<(), Fail> {
    for (words, script, text) in USED {
        let (status, taken) = told_by(rt.alloc(), words, script, 64, &[])?;
        assert_eq!(rt; status, Status::Done);
        assert_eq!(rt; taken.as_slice(), text);
    }
    Ok(())
}
