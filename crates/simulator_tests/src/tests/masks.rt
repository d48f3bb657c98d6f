//! Masks that are written, and those of new groups.

use crate::tests::{Row, STEP};

pub(crate) const ROWS: [Row; 4] = [
    (
        STEP,
        "machine sets=1 ways=4 min=2
phase
thread
write /schemata L3:0=5
write /schemata L3:0=0
write /schemata L3:0=10
write /schemata L3:0=4
write /schemata
write /schemata  L3 : 0 = 0xC\x20
read /schemata
",
        "0 0.0 write /schemata L3:0=5: EINVAL mask 5 has non-consecutive 1-bits
1 0.1 write /schemata L3:0=0: EINVAL mask 0 out of range
2 0.2 write /schemata L3:0=10: EINVAL mask 10 out of range
3 0.3 write /schemata L3:0=4: EINVAL mask 4 has fewer bits than min_cbm_bits
4 0.4 write /schemata: EINVAL missing ':'
5 0.5 write /schemata  L3 : 0 = 0xC : ok
6 0.6 read /schemata: ok
|L3:0=c
group 0 /: accesses 0 hits 0 misses 0
domain 0: valid 0 of 4
total: commands 7 refused 5 accesses 0 hits 0 misses 0
",
    ),
    (
        STEP,
        "machine domains=2 sets=1 ways=4
phase
thread
write /schemata L3:0=3;0=3
write /schemata L3:0=3;9=3
read /schemata
read /size
write /size 1
",
        "0 0.0 write /schemata L3:0=3;0=3: EINVAL duplicate domain 0
1 0.1 write /schemata L3:0=3;9=3: EINVAL unknown domain
2 0.2 read /schemata: ok
|L3:0=f;1=f
3 0.3 read /size: ok
|L3:0=256;1=256
4 0.4 write /size 1: EACCES file is read-only
group 0 /: accesses 0 hits 0 misses 0
domain 0: valid 0 of 4
domain 1: valid 0 of 4
total: commands 5 refused 3 accesses 0 hits 0 misses 0
",
    ),
    // Of two caches the second has no space.
    (
        STEP,
        "machine domains=2 sets=1 ways=8
phase
thread
write /schemata L3:0=50
write /schemata L3:0=3
write /mode exclusive
mkdir /a
",
        "0 0.0 write /schemata L3:0=50: EINVAL mask 50 has non-consecutive 1-bits
1 0.1 write /schemata L3:0=3: ok
2 0.2 write /mode exclusive: ok
3 0.3 mkdir /a: ENOSPC no space on L3:1
group 0 /: accesses 0 hits 0 misses 0
domain 0: valid 0 of 8
domain 1: valid 0 of 8
total: commands 4 refused 2 accesses 0 hits 0 misses 0
",
    ),
    // Other hardware shares the last way of both caches.
    (
        STEP,
        "machine domains=2 sets=1 ways=4 shareable=8
phase
thread
write /schemata L3:0=3
mkdir /a
read /a/schemata
write /a/schemata L3:1=c
read /a/schemata
read /a/size
read /schemata
rmdir /a
read /a/schemata
",
        "0 0.0 write /schemata L3:0=3: ok
1 0.1 mkdir /a: ok
2 0.2 read /a/schemata: ok
|L3:0=f;1=f
3 0.3 write /a/schemata L3:1=c: ok
4 0.4 read /a/schemata: ok
|L3:0=f;1=c
5 0.5 read /a/size: ok
|L3:0=256;1=128
6 0.6 read /schemata: ok
|L3:0=3;1=f
7 0.7 rmdir /a: ok
8 0.8 read /a/schemata: ENOENT no such file or directory
group 0 /: accesses 0 hits 0 misses 0
group 1 /a: accesses 0 hits 0 misses 0
domain 0: valid 0 of 4
domain 1: valid 0 of 4
total: commands 9 refused 1 accesses 0 hits 0 misses 0
",
    ),
];
