//! Accesses of one cache and of two.

use crate::tests::{Row, STEP};

pub(crate) const ROWS: [Row; 7] = [
    (
        STEP,
        "machine sets=1 ways=4
tasks 1
phase
thread
sweep 1 0 0 3 64
access 1 0 0
",
        "group 0 /: accesses 4 hits 1 misses 3
domain 0: valid 3 of 4, rmid 0 3
total: commands 0 refused 0 accesses 4 hits 1 misses 3
",
    ),
    (
        STEP,
        "machine sets=1 ways=4
tasks 1
phase
thread
write /schemata L3:0=3
sweep 1 0 0 3 64
access 1 0 0
",
        "0 0.0 write /schemata L3:0=3: ok
group 0 /: accesses 4 hits 0 misses 4
domain 0: valid 2 of 4, rmid 0 2
total: commands 1 refused 0 accesses 4 hits 0 misses 4
",
    ),
    (
        STEP,
        "machine sets=1 ways=4
tasks 1
phase
thread
access 1 0 0
write /schemata L3:0=c
access 1 0 0",
        "0 0.1 write /schemata L3:0=c: ok
group 0 /: accesses 2 hits 1 misses 1
domain 0: valid 1 of 4, rmid 0 1
total: commands 1 refused 0 accesses 2 hits 1 misses 1
",
    ),
    (
        STEP,
        "# two caches
machine domains=2\tsets=1 ways=4 cpus=4\r

tasks 7 1-2
phase
order 0 0 9
phase
  thread
access 7 1 0
access 2 2 0x40
write /schemata L3:1=3\\nL3:0=1;
flush 1
\taccess 1 3 64
access 1 0 0
#done
",
        "0 0.2 write /schemata L3:1=3\\nL3:0=1;: ok
1 0.3 flush 1: ok
group 0 /: accesses 4 hits 1 misses 3
domain 0: valid 1 of 4, rmid 0 1
domain 1: valid 1 of 4, rmid 0 1
total: commands 2 refused 0 accesses 4 hits 1 misses 3
",
    ),
    (
        STEP,
        "machine",
        "group 0 /: accesses 0 hits 0 misses 0
domain 0: valid 0 of 512
total: commands 0 refused 0 accesses 0 hits 0 misses 0
",
    ),
    (
        STEP,
        "machine sets=1 ways=4
tasks 1
phase
thread
sweep 1 0 0 4000000 0
",
        "group 0 /: accesses 4000000 hits 3999999 misses 1
domain 0: valid 1 of 4, rmid 0 1
total: commands 0 refused 0 accesses 4000000 hits 3999999 misses 1
",
    ),
    (
        STEP,
        "machine sets=1 ways=4
tasks 1
phase
thread
access 1 0 0
mkdir /a
access 1 0 0
rmdir /a
access 1 0 64
",
        "0 0.1 mkdir /a: ok
1 0.3 rmdir /a: ok
group 0 /: accesses 3 hits 1 misses 2
group 1 /a: accesses 0 hits 0 misses 0
domain 0: valid 2 of 4, rmid 0 2
total: commands 2 refused 0 accesses 3 hits 1 misses 2
",
    ),
];
