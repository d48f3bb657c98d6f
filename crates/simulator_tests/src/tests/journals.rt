//! Entries of slices. The tag of an access and the epoch of each entry are told.

use crate::tests::{Row, WITH_JOURNAL};

pub(crate) const ROWS: [Row; 7] = [
    // CPU 0 is of domain 0, and CPU 1 of domain 1.
    (
        WITH_JOURNAL,
        "machine domains=2 sets=1 ways=4 cpus=2
tasks 1
phase
thread
access 1 1 0
access 1 1 64
write /schemata L3:1=3;0=1
access 1 1 128
flush 1
access 1 1 64
access 1 0 0
access 1 0 0
write /schemata L3:0=5
flush
access 1 0 64
",
        "0 0.2 write /schemata L3:1=3;0=1: ok
1 0.4 flush 1: ok
2 0.8 write /schemata L3:0=5: EINVAL mask 5 has non-consecutive 1-bits
3 0.9 flush: ok
slice 0.0
0 0.2 e1 raise
1 0.6 e2 access group 0 rmid 0 mask 1 set 0 line 0 fill way 0
2 0.7 e2 access group 0 rmid 0 mask 1 set 0 line 0 hit way 0
3 0.9 e4 flush
4 0.10 e4 access group 0 rmid 0 mask 1 set 0 line 1 fill way 0
slice 1.0
0 0.0 e0 access group 0 rmid 0 mask f set 0 line 0 fill way 0
1 0.1 e0 access group 0 rmid 0 mask f set 0 line 1 fill way 1
2 0.2 e1 raise
3 0.3 e1 access group 0 rmid 0 mask 3 set 0 line 2 fill way 0
4 0.4 e2 flush
5 0.5 e2 access group 0 rmid 0 mask 3 set 0 line 1 fill way 0
6 0.9 e4 flush
group 0 /: accesses 7 hits 1 misses 6
domain 0: valid 1 of 4, rmid 0 1
domain 1: valid 0 of 4
total: commands 4 refused 1 accesses 7 hits 1 misses 6
",
    ),
    // CPUs 0 and 1 are of domain 0, and CPUs 2 and 3 of domain 1. The first phase has no thread.
    (
        WITH_JOURNAL,
        "machine domains=2 sets=2 ways=2 cpus=4
tasks 1
phase
phase
thread
access 1 1 0
access 1 2 0
flush 0
access 1 3 0
",
        "0 0.2 flush 0: ok
slice 0.0
0 0.0 e0 access group 0 rmid 0 mask 3 set 0 line 0 fill way 0
1 0.2 e1 flush
slice 1.0
0 0.1 e0 access group 0 rmid 0 mask 3 set 0 line 0 fill way 0
1 0.3 e1 access group 0 rmid 0 mask 3 set 0 line 0 hit way 0
group 0 /: accesses 3 hits 1 misses 2
domain 0: valid 0 of 4
domain 1: valid 1 of 4, rmid 0 1
total: commands 1 refused 0 accesses 3 hits 1 misses 2
",
    ),
    // There is no phase.
    (
        WITH_JOURNAL,
        "machine domains=3 cpus=3
tasks 1
",
        "slice 0.0
slice 1.0
slice 2.0
group 0 /: accesses 0 hits 0 misses 0
domain 0: valid 0 of 512
domain 1: valid 0 of 512
domain 2: valid 0 of 512
total: commands 0 refused 0 accesses 0 hits 0 misses 0
",
    ),
    // Thread 1 learns its tag before thread 0 writes the mask, and has to tag again.
    (
        WITH_JOURNAL,
        "machine sets=1 ways=4
tasks 1
phase
order 1 0 0 0 0 0 0 1 1 1
thread
write /schemata L3:0=3
flush
thread
access 1 0 0
",
        "0 0.0 write /schemata L3:0=3: ok
1 0.1 flush: ok
slice 0.0
0 0.0 e1 raise
1 0.1 e2 flush
2 1.0 e2 access group 0 rmid 0 mask 3 set 0 line 0 fill way 0
group 0 /: accesses 1 hits 0 misses 1
domain 0: valid 1 of 4, rmid 0 1
total: commands 2 refused 0 accesses 1 hits 0 misses 1
",
    ),
    // Four lines, two of each slice, and a flush of both.
    (
        WITH_JOURNAL,
        "machine sets=4 ways=2 slices=2
tasks 1
phase
thread
sweep 1 0 0 4 64
flush
",
        "0 0.4 flush: ok
slice 0.0
0 0.0 e0 access group 0 rmid 0 mask 3 set 0 line 0 fill way 0
1 0.2 e0 access group 0 rmid 0 mask 3 set 2 line 2 fill way 0
2 0.4 e1 flush
slice 0.1
0 0.1 e0 access group 0 rmid 0 mask 3 set 1 line 1 fill way 0
1 0.3 e0 access group 0 rmid 0 mask 3 set 3 line 3 fill way 0
2 0.4 e1 flush
group 0 /: accesses 4 hits 0 misses 4
domain 0: valid 0 of 8
total: commands 1 refused 0 accesses 4 hits 0 misses 4
",
    ),
    // The line is flushed from the caches of both domains, and once more.
    (
        WITH_JOURNAL,
        "machine sets=1 ways=2 domains=2
tasks 1
phase
thread
access 1 0 64
clflush 64
clflush 64
",
        "0 0.1 clflush 64: ok
1 0.2 clflush 64: ok
slice 0.0
0 0.0 e0 access group 0 rmid 0 mask 3 set 0 line 1 fill way 0
1 0.1 e1 drop line 1 way 0
2 0.2 e2 drop line 1 none
slice 1.0
0 0.1 e1 drop line 1 none
1 0.2 e2 drop line 1 none
group 0 /: accesses 1 hits 0 misses 1
domain 0: valid 0 of 2
domain 1: valid 0 of 2
total: commands 2 refused 0 accesses 1 hits 0 misses 1
",
    ),
    // A group comes and goes. Its RMID is 1.
    (
        WITH_JOURNAL,
        "machine domains=2 sets=1 ways=4 cpus=2
tasks 1
phase
thread
mkdir /a
access 1 0 0
rmdir /a
access 1 0 0
",
        "0 0.0 mkdir /a: ok
1 0.2 rmdir /a: ok
slice 0.0
0 0.1 e1 access group 0 rmid 0 mask f set 0 line 0 fill way 0
1 0.2 e1 look rmid 1 lines 0
2 0.2 e2 raise
3 0.3 e2 access group 0 rmid 0 mask f set 0 line 0 hit way 0
slice 1.0
0 0.2 e1 look rmid 1 lines 0
1 0.2 e2 raise
group 0 /: accesses 2 hits 1 misses 1
group 1 /a: accesses 0 hits 0 misses 0
domain 0: valid 1 of 4, rmid 0 1
domain 1: valid 0 of 4
total: commands 2 refused 0 accesses 2 hits 1 misses 1
",
    ),
];
