//! RMIDs of removed groups.

use crate::tests::{Row, STEP, WITH_JOURNAL};

pub(crate) const ROWS: [Row; 3] = [
    // One line is left of an RMID.
    (
        STEP,
        "machine sets=1 ways=4 rmids=2
tasks 1
phase
thread
mkdir /a
write /a/tasks 1
access 1 0 0
rmdir /a
mkdir /b
flush
tick
mkdir /b
",
        "0 0.0 mkdir /a: ok
1 0.1 write /a/tasks 1: ok
2 0.3 rmdir /a: ok
3 0.4 mkdir /b: EBUSY RMIDs are in limbo
4 0.5 flush: ok
5 0.6 tick: ok
6 0.7 mkdir /b: ok
group 0 /: accesses 0 hits 0 misses 0
group 1 /a: accesses 1 hits 0 misses 1
group 2 /b: accesses 0 hits 0 misses 0
domain 0: valid 0 of 4
total: commands 7 refused 1 accesses 1 hits 0 misses 1
",
    ),
    (
        STEP,
        "machine sets=1 ways=4 rmids=1
tasks 1
phase
thread
mkdir /a
write /a/tasks 1
access 1 0 0
rmdir /a
mkdir /b
flush
tick
mkdir /b
",
        "0 0.0 mkdir /a: ENOSPC out of RMIDs
1 0.1 write /a/tasks 1: ENOENT no such file or directory
2 0.3 rmdir /a: ENOENT no such file or directory
3 0.4 mkdir /b: ENOSPC out of RMIDs
4 0.5 flush: ok
5 0.6 tick: ok
6 0.7 mkdir /b: ENOSPC out of RMIDs
group 0 /: accesses 1 hits 0 misses 1
domain 0: valid 0 of 4
total: commands 7 refused 5 accesses 1 hits 0 misses 1
",
    ),
    // A group goes with its monitor group, of whose RMID one line is left, and a tick tests it.
    (
        WITH_JOURNAL,
        "machine sets=1 ways=4 rmids=4
tasks 1
phase
thread
mkdir /a/mon_groups/m
mkdir /a
mkdir /mon_groups/m
mkdir /a/mon_groups/m
mkdir /a/mon_groups/m
mkdir /b
mkdir /mon_groups/b
write /a/tasks 1
write /a/mon_groups/m/tasks 1
access 1 0 0
read /a/mon_data/mon_L3_00/llc_occupancy
read /mon_groups/m/mon_data/mon_L3_00/llc_occupancy
read /mon_groups/a/mon_data/mon_L3_00/llc_occupancy
rmdir /a
mkdir /b
mkdir /a
mkdir /a/mon_groups/m
tick
mkdir /a
flush
tick
mkdir /a
",
        "0 0.0 mkdir /a/mon_groups/m: ENOENT no such file or directory
1 0.1 mkdir /a: ok
2 0.2 mkdir /mon_groups/m: ok
3 0.3 mkdir /a/mon_groups/m: ok
4 0.4 mkdir /a/mon_groups/m: EEXIST file exists
5 0.5 mkdir /b: ENOSPC out of RMIDs
6 0.6 mkdir /mon_groups/b: ENOSPC out of RMIDs
7 0.7 write /a/tasks 1: ok
8 0.8 write /a/mon_groups/m/tasks 1: ok
9 0.10 read /a/mon_data/mon_L3_00/llc_occupancy: ok
|64
10 0.11 read /mon_groups/m/mon_data/mon_L3_00/llc_occupancy: ok
|0
11 0.12 read /mon_groups/a/mon_data/mon_L3_00/llc_occupancy: ENOENT no such file or directory
12 0.13 rmdir /a: ok
13 0.14 mkdir /b: ok
14 0.15 mkdir /a: EBUSY RMIDs are in limbo
15 0.16 mkdir /a/mon_groups/m: ENOENT no such file or directory
16 0.17 tick: ok
17 0.18 mkdir /a: EBUSY RMIDs are in limbo
18 0.19 flush: ok
19 0.20 tick: ok
20 0.21 mkdir /a: ok
slice 0.0
0 0.9 e9 access group 1 rmid 3 mask f set 0 line 0 fill way 0
1 0.10 e9 look rmid 1 lines 0
2 0.10 e9 look rmid 3 lines 1
3 0.11 e10 look rmid 2 lines 0
4 0.13 e12 look rmid 1 lines 0
5 0.13 e12 look rmid 3 lines 1
6 0.13 e13 raise
7 0.17 e16 look rmid 3 lines 1
8 0.19 e19 flush
9 0.20 e19 look rmid 3 lines 0
group 0 /: accesses 0 hits 0 misses 0
group 1 /a: accesses 1 hits 0 misses 1
group 4 /b: accesses 0 hits 0 misses 0
group 5 /a: accesses 0 hits 0 misses 0
domain 0: valid 0 of 4
total: commands 21 refused 8 accesses 1 hits 0 misses 1
",
    ),
];
