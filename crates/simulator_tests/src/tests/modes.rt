//! Modes that are written.

use crate::tests::{Row, STEP, WITH_JOURNAL};

pub(crate) const ROWS: [Row; 4] = [
    // The kernel documentation's example of an exclusive group, on four caches.
    (
        STEP,
        "machine domains=4 sets=2048 ways=8
phase
thread
mkdir /p0
write /p0/schemata L3:0=3;1=3;2=3;3=3
write /p0/mode exclusive
read /info/last_cmd_status
write /schemata L3:0=fc;1=fc;2=fc;3=fc
write /p0/mode exclusive
read /p0/size
read /info/L3/bit_usage
mkdir /p1
read /p1/schemata
read /p1/size
write /p1/schemata L3:0=1;1=1;2=1;3=1
read /info/last_cmd_status
",
        "0 0.0 mkdir /p0: ok
1 0.1 write /p0/schemata L3:0=3;1=3;2=3;3=3: ok
2 0.2 write /p0/mode exclusive: EINVAL schemata overlaps
3 0.3 read /info/last_cmd_status: ok
|schemata overlaps
4 0.4 write /schemata L3:0=fc;1=fc;2=fc;3=fc: ok
5 0.5 write /p0/mode exclusive: ok
6 0.6 read /p0/size: ok
|L3:0=262144;1=262144;2=262144;3=262144
7 0.7 read /info/L3/bit_usage: ok
|0=SSSSSSEE;1=SSSSSSEE;2=SSSSSSEE;3=SSSSSSEE
8 0.8 mkdir /p1: ok
9 0.9 read /p1/schemata: ok
|L3:0=fc;1=fc;2=fc;3=fc
10 0.10 read /p1/size: ok
|L3:0=786432;1=786432;2=786432;3=786432
11 0.11 write /p1/schemata L3:0=1;1=1;2=1;3=1: EINVAL overlaps with exclusive group
12 0.12 read /info/last_cmd_status: ok
|overlaps with exclusive group
group 0 /: accesses 0 hits 0 misses 0
group 1 /p0: accesses 0 hits 0 misses 0
group 2 /p1: accesses 0 hits 0 misses 0
domain 0: valid 0 of 16384
domain 1: valid 0 of 16384
domain 2: valid 0 of 16384
domain 3: valid 0 of 16384
total: commands 13 refused 2 accesses 0 hits 0 misses 0
",
    ),
    (
        STEP,
        "machine sets=1 ways=4
phase
thread
write /mode exclusive
mkdir /a
",
        "0 0.0 write /mode exclusive: ok
1 0.1 mkdir /a: ENOSPC no space on L3:0
group 0 /: accesses 0 hits 0 misses 0
domain 0: valid 0 of 4
total: commands 2 refused 1 accesses 0 hits 0 misses 0
",
    ),
    (
        STEP,
        "machine sets=1 ways=4 classes=1
phase
thread
write /mode exclusive
mkdir /a
",
        "0 0.0 write /mode exclusive: ok
1 0.1 mkdir /a: ENOSPC out of CLOSIDs
group 0 /: accesses 0 hits 0 misses 0
domain 0: valid 0 of 4
total: commands 2 refused 1 accesses 0 hits 0 misses 0
",
    ),
    // A change of mode raises every domain. CPU 0 is of domain 0.
    (
        WITH_JOURNAL,
        "machine domains=2 sets=1 ways=4 cpus=2
tasks 1
phase
thread
write /schemata L3:0=3
mkdir /a
write /a/schemata L3:1=c;0=c
write /schemata L3:1=3
write /a/mode shareable
write /a/mode exclusive
access 1 0 0
write /a/mode exclusive
write /a/mode none
read /info/L3/bit_usage
write /a/mode shareable
access 1 0 0
write /mode exclusive
",
        "0 0.0 write /schemata L3:0=3: ok
1 0.1 mkdir /a: ok
2 0.2 write /a/schemata L3:1=c;0=c: ok
3 0.3 write /schemata L3:1=3: ok
4 0.4 write /a/mode shareable: ok
5 0.5 write /a/mode exclusive: ok
6 0.7 write /a/mode exclusive: ok
7 0.8 write /a/mode none: EINVAL unknown or unsupported mode
8 0.9 read /info/L3/bit_usage: ok
|0=EESS;1=EESS
9 0.10 write /a/mode shareable: ok
10 0.12 write /mode exclusive: ok
slice 0.0
0 0.0 e1 raise
1 0.2 e3 raise
2 0.5 e6 raise
3 0.6 e6 access group 0 rmid 0 mask 3 set 0 line 0 fill way 0
4 0.10 e10 raise
5 0.11 e10 access group 0 rmid 0 mask 3 set 0 line 0 hit way 0
6 0.12 e11 raise
slice 1.0
0 0.2 e3 raise
1 0.3 e4 raise
2 0.5 e6 raise
3 0.10 e10 raise
4 0.12 e11 raise
group 0 /: accesses 2 hits 1 misses 1
group 1 /a: accesses 0 hits 0 misses 0
domain 0: valid 1 of 4, rmid 0 1
domain 1: valid 0 of 4
total: commands 11 refused 1 accesses 2 hits 1 misses 1
",
    ),
];
