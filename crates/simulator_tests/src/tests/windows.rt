//! Windows in which a group has its ways for itself.

use crate::tests::{Row, WITH_WINDOWS};

pub(crate) const ROWS: [Row; 7] = [
    // Task 1 has two ways for itself, and task 2 goes over a hundred lines between each two of its accesses.
    (
        WITH_WINDOWS,
        "machine sets=1 ways=8
tasks 1 2
phase
thread
write /schemata L3:0=fc
mkdir /p0
write /p0/schemata L3:0=3
write /p0/mode exclusive
write /p0/tasks 1
flush
access 1 0 0
sweep 2 0 64000 100 64
access 1 0 64
sweep 2 0 64000 100 64
access 1 0 0
sweep 2 0 64000 100 64
access 1 0 128
sweep 2 0 64000 100 64
access 1 0 64
",
        "window 0.0 group 1 ways 2 from 3: accesses 5 hits 1 covered 5 hits 1 private 1
group 0 /: accesses 400 hits 0 misses 400
group 1 /p0: accesses 5 hits 1 misses 4
domain 0: valid 8 of 8, rmid 0 6, rmid 1 2
total: commands 6 refused 0 accesses 405 hits 1 misses 404
",
    ),
    // The accesses of the tenant alone, with nobody beside it.
    (
        WITH_WINDOWS,
        "machine sets=1 ways=8
tasks 1 2
phase
thread
write /schemata L3:0=fc
mkdir /p0
write /p0/schemata L3:0=3
write /p0/mode exclusive
write /p0/tasks 1
flush
access 1 0 0
access 1 0 64
access 1 0 0
access 1 0 128
access 1 0 64
",
        "window 0.0 group 1 ways 2 from 3: accesses 5 hits 1 covered 5 hits 1 private 1
group 0 /: accesses 0 hits 0 misses 0
group 1 /p0: accesses 5 hits 1 misses 4
domain 0: valid 2 of 8, rmid 1 2
total: commands 6 refused 0 accesses 5 hits 1 misses 4
",
    ),
    // The mask goes away and comes back, and with it nothing of the window.
    (
        WITH_WINDOWS,
        "machine sets=1 ways=8
tasks 1 2
phase
thread
write /schemata L3:0=fc
mkdir /p0
write /p0/schemata L3:0=3
write /p0/mode exclusive
write /p0/tasks 1
flush
access 1 0 0
write /p0/schemata L3:0=1
write /p0/schemata L3:0=3
access 1 0 0
",
        "window 0.0 group 1 ways 2 from 3: accesses 1 hits 0 covered 1 hits 0 private 0
group 0 /: accesses 0 hits 0 misses 0
group 1 /p0: accesses 2 hits 1 misses 1
domain 0: valid 1 of 8, rmid 1 1
total: commands 8 refused 0 accesses 2 hits 1 misses 1
",
    ),
    // Task 2 uses the tenant's line, and from then on the tenant is not covered.
    (
        WITH_WINDOWS,
        "machine sets=1 ways=8
tasks 1 2
phase
thread
write /schemata L3:0=fc
mkdir /p0
write /p0/schemata L3:0=3
write /p0/mode exclusive
write /p0/tasks 1
flush
access 1 0 0
access 2 0 0
access 1 0 0
",
        "window 0.0 group 1 ways 2 from 3: accesses 2 hits 1 covered 1 hits 0 private 0
group 0 /: accesses 1 hits 1 misses 0
group 1 /p0: accesses 2 hits 1 misses 1
domain 0: valid 1 of 8, rmid 1 1
total: commands 6 refused 0 accesses 3 hits 2 misses 1
",
    ),
    // All accesses are to one set of the first slice, where task 1 has two ways for itself.
    (
        WITH_WINDOWS,
        "machine sets=2 ways=8 slices=2
tasks 1 2
phase
thread
write /schemata L3:0=fc
mkdir /p0
write /p0/schemata L3:0=3
write /p0/mode exclusive
write /p0/tasks 1
flush
access 1 0 0
sweep 2 0 128000 100 128
access 1 0 128
sweep 2 0 128000 100 128
access 1 0 0
sweep 2 0 128000 100 128
access 1 0 256
sweep 2 0 128000 100 128
access 1 0 128
",
        "window 0.0 group 1 ways 2 from 3: accesses 5 hits 1 covered 5 hits 1 private 1
group 0 /: accesses 400 hits 0 misses 400
group 1 /p0: accesses 5 hits 1 misses 4
domain 0: valid 8 of 16, rmid 0 6, rmid 1 2
total: commands 6 refused 0 accesses 405 hits 1 misses 404
",
    ),
    // Two ways, and three lines. The flush of line 1 makes room for line 2.
    (
        WITH_WINDOWS,
        "machine sets=1 ways=2
tasks 1
phase
thread
write /mode exclusive
flush
access 1 0 0
access 1 0 64
clflush 64
access 1 0 128
access 1 0 0
",
        "window 0.0 group 0 ways 2 from 1: accesses 4 hits 1 covered 4 hits 1 private 1
group 0 /: accesses 4 hits 1 misses 3
domain 0: valid 2 of 2, rmid 0 2
total: commands 3 refused 0 accesses 4 hits 1 misses 3
",
    ),
    // The same without the flush.
    (
        WITH_WINDOWS,
        "machine sets=1 ways=2
tasks 1
phase
thread
write /mode exclusive
flush
access 1 0 0
access 1 0 64
access 1 0 128
access 1 0 0
",
        "window 0.0 group 0 ways 2 from 1: accesses 4 hits 0 covered 4 hits 0 private 0
group 0 /: accesses 4 hits 0 misses 4
domain 0: valid 2 of 2, rmid 0 2
total: commands 2 refused 0 accesses 4 hits 0 misses 4
",
    ),
];
