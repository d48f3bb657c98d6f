//! Masks that may have gaps.

use crate::tests::{Row, WITH_JOURNAL};

pub(crate) const ROWS: [Row; 3] = [
    // The new group starts with every way that nobody has for itself, and is locked on these.
    (
        WITH_JOURNAL,
        "machine sets=1 ways=4 sparse=1
tasks 1
phase
thread
write /schemata L3:0=5
write /mode exclusive
mkdir /a
read /a/schemata
write /a/mode pseudo-locksetup
write /a/schemata L3:0=a
touch /a 64 1 0
",
        "0 0.0 write /schemata L3:0=5: ok
1 0.1 write /mode exclusive: ok
2 0.2 mkdir /a: ok
3 0.3 read /a/schemata: ok
|L3:0=a
4 0.4 write /a/mode pseudo-locksetup: ok
5 0.5 write /a/schemata L3:0=a: ok
6 0.6 touch /a 64 1 0: ok hit
slice 0.0
0 0.0 e1 raise
1 0.1 e2 raise
2 0.4 e4 look rmid 1 lines 0
3 0.4 e5 raise
4 0.5 e6 lock mask a first 4503599627370496
5 0.6 e7 access group 0 rmid 0 mask 5 set 0 line 4503599627370497 hit way 3
group 0 /: accesses 1 hits 1 misses 0
group 1 /a: accesses 0 hits 0 misses 0
domain 0: valid 2 of 4, rmid 0 2
total: commands 7 refused 0 accesses 1 hits 1 misses 0
",
    ),
    // The same where masks are not sparse.
    (
        WITH_JOURNAL,
        "machine sets=1 ways=4 sparse=0
tasks 1
phase
thread
write /schemata L3:0=5
write /mode exclusive
mkdir /a
read /a/schemata
write /a/mode pseudo-locksetup
write /a/schemata L3:0=a
touch /a 64 1 0
",
        "0 0.0 write /schemata L3:0=5: EINVAL mask 5 has non-consecutive 1-bits
1 0.1 write /mode exclusive: ok
2 0.2 mkdir /a: ENOSPC no space on L3:0
3 0.3 read /a/schemata: ENOENT no such file or directory
4 0.4 write /a/mode pseudo-locksetup: ENOENT no such file or directory
5 0.5 write /a/schemata L3:0=a: ENOENT no such file or directory
6 0.6 touch /a 64 1 0: ENOENT no such file or directory
slice 0.0
0 0.1 e2 raise
group 0 /: accesses 0 hits 0 misses 0
domain 0: valid 0 of 4
total: commands 7 refused 6 accesses 0 hits 0 misses 0
",
    ),
    // Just the lowest run of a mask has to have as many ways as the machine asks for.
    (
        WITH_JOURNAL,
        "machine sets=1 ways=4 min=2 sparse=1
phase
thread
write /schemata L3:0=5
write /schemata L3:0=b
",
        "0 0.0 write /schemata L3:0=5: EINVAL mask 5 has fewer bits than min_cbm_bits
1 0.1 write /schemata L3:0=b: ok
slice 0.0
0 0.1 e2 raise
group 0 /: accesses 0 hits 0 misses 0
domain 0: valid 0 of 4
total: commands 2 refused 1 accesses 0 hits 0 misses 0
",
    ),
];
