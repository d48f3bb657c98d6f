//! What stands against a mask, and against a mode.

use crate::tests::{Row, STEP};

pub(crate) const ROWS: [Row; 4] = [
    // An exclusive group, another one, and the default group, in both caches; and what stands against a mask of each.
    (
        STEP,
        "machine domains=2 sets=1 ways=8
phase
thread
write /schemata L3:0=f0;1=f0
mkdir /a
write /a/schemata L3:0=3;1=3
mkdir /b
write /b/schemata L3:0=c;1=c
write /a/mode exclusive
write /b/mode exclusive
write /a/schemata L3:0=ff
write /a/schemata L3:0=f0
write /a/schemata L3:1=f0;0=c
write /a/schemata L3:1=1;0=f0
write /schemata L3:0=ff
read /a/schemata
write /b/mode shareable
write /a/schemata L3:0=f
rmdir /a
read /info/L3/bit_usage
",
        "0 0.0 write /schemata L3:0=f0;1=f0: ok
1 0.1 mkdir /a: ok
2 0.2 write /a/schemata L3:0=3;1=3: ok
3 0.3 mkdir /b: ok
4 0.4 write /b/schemata L3:0=c;1=c: ok
5 0.5 write /a/mode exclusive: ok
6 0.6 write /b/mode exclusive: ok
7 0.7 write /a/schemata L3:0=ff: EINVAL overlaps with exclusive group
8 0.8 write /a/schemata L3:0=f0: EINVAL overlaps with other group
9 0.9 write /a/schemata L3:1=f0;0=c: EINVAL overlaps with other group
10 0.10 write /a/schemata L3:1=1;0=f0: EINVAL overlaps with other group
11 0.11 write /schemata L3:0=ff: EINVAL overlaps with exclusive group
12 0.12 read /a/schemata: ok
|L3:0=03;1=03
13 0.13 write /b/mode shareable: ok
14 0.14 write /a/schemata L3:0=f: EINVAL overlaps with other group
15 0.15 rmdir /a: ok
16 0.16 read /info/L3/bit_usage: ok
|0=SSSSSS00;1=SSSSSS00
group 0 /: accesses 0 hits 0 misses 0
group 1 /a: accesses 0 hits 0 misses 0
group 2 /b: accesses 0 hits 0 misses 0
domain 0: valid 0 of 8
domain 1: valid 0 of 8
total: commands 17 refused 6 accesses 0 hits 0 misses 0
",
    ),
    // Other hardware shares the two highest ways. An exclusive group comes first, then any other, then the shareable bits.
    (
        STEP,
        "machine sets=1 ways=8 shareable=c0
phase
thread
write /schemata L3:0=7
mkdir /a
mkdir /b
write /a/mode exclusive
write /a/schemata L3:0=8
write /b/schemata L3:0=60
write /a/mode exclusive
write /b/mode exclusive
write /b/schemata L3:0=30
write /b/mode exclusive
write /b/schemata L3:0=ff
write /b/schemata L3:0=f
write /b/schemata L3:0=7
write /b/schemata L3:0=c0
write /b/schemata L3:0=20
write /schemata L3:0=c0
write /schemata L3:0=60
write /b/mode shareable
write /schemata L3:0=60
",
        "0 0.0 write /schemata L3:0=7: ok
1 0.1 mkdir /a: ok
2 0.2 mkdir /b: ok
3 0.3 write /a/mode exclusive: EINVAL schemata overlaps
4 0.4 write /a/schemata L3:0=8: ok
5 0.5 write /b/schemata L3:0=60: ok
6 0.6 write /a/mode exclusive: ok
7 0.7 write /b/mode exclusive: EINVAL schemata overlaps
8 0.8 write /b/schemata L3:0=30: ok
9 0.9 write /b/mode exclusive: ok
10 0.10 write /b/schemata L3:0=ff: EINVAL overlaps with exclusive group
11 0.11 write /b/schemata L3:0=f: EINVAL overlaps with exclusive group
12 0.12 write /b/schemata L3:0=7: EINVAL overlaps with other group
13 0.13 write /b/schemata L3:0=c0: EINVAL overlaps with shareable bits
14 0.14 write /b/schemata L3:0=20: ok
15 0.15 write /schemata L3:0=c0: ok
16 0.16 write /schemata L3:0=60: EINVAL overlaps with exclusive group
17 0.17 write /b/mode shareable: ok
18 0.18 write /schemata L3:0=60: ok
group 0 /: accesses 0 hits 0 misses 0
group 1 /a: accesses 0 hits 0 misses 0
group 2 /b: accesses 0 hits 0 misses 0
domain 0: valid 0 of 8
total: commands 19 refused 7 accesses 0 hits 0 misses 0
",
    ),
    // Against the mask of an exclusive group stand bits that other hardware shares, though no group has them.
    (
        STEP,
        "machine sets=1 ways=8 shareable=c0
phase
thread
write /schemata L3:0=f
mkdir /a
write /a/schemata L3:0=30
write /a/mode exclusive
write /a/schemata L3:0=c0
",
        "0 0.0 write /schemata L3:0=f: ok
1 0.1 mkdir /a: ok
2 0.2 write /a/schemata L3:0=30: ok
3 0.3 write /a/mode exclusive: ok
4 0.4 write /a/schemata L3:0=c0: EINVAL overlaps with shareable bits
group 0 /: accesses 0 hits 0 misses 0
group 1 /a: accesses 0 hits 0 misses 0
domain 0: valid 0 of 8
total: commands 5 refused 1 accesses 0 hits 0 misses 0
",
    ),
    // An exclusive group keeps a group in pseudo-locksetup.
    (
        STEP,
        "machine sets=1 ways=4
tasks 1
phase
thread
write /schemata L3:0=3
mkdir /k
write /k/schemata L3:0=c
write /k/mode pseudo-locksetup
mkdir /b
write /k/tasks 1
write /k/schemata L3:0=3
write /b/schemata L3:0=c
write /b/mode exclusive
write /k/mode shareable
rmdir /b
write /k/mode shareable
",
        "0 0.0 write /schemata L3:0=3: ok
1 0.1 mkdir /k: ok
2 0.2 write /k/schemata L3:0=c: ok
3 0.3 write /k/mode pseudo-locksetup: ok
4 0.4 mkdir /b: ok
5 0.5 write /k/tasks 1: EINVAL pseudo-locking in progress
6 0.6 write /k/schemata L3:0=3: EINVAL overlaps with other group
7 0.7 write /b/schemata L3:0=c: ok
8 0.8 write /b/mode exclusive: ok
9 0.9 write /k/mode shareable: EINVAL overlaps with exclusive group
10 0.10 rmdir /b: ok
11 0.11 write /k/mode shareable: ok
group 0 /: accesses 0 hits 0 misses 0
group 1 /k: accesses 0 hits 0 misses 0
group 2 /b: accesses 0 hits 0 misses 0
domain 0: valid 0 of 4
total: commands 12 refused 3 accesses 0 hits 0 misses 0
",
    ),
];
