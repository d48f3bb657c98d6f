//! RMIDs that may leave some lines.

use crate::tests::{Row, STEP};

pub(crate) const ROWS: [Row; 2] = [
    // One line is left of an RMID.
    (
        STEP,
        "machine sets=1 ways=4 rmids=2 threshold=64
tasks 1
phase
thread
mkdir /a
write /a/tasks 1
access 1 0 0
rmdir /a
mkdir /b
flush
tick
mkdir /b
read /info/L3_MON/max_threshold_occupancy
",
        "0 0.0 mkdir /a: ok
1 0.1 write /a/tasks 1: ok
2 0.3 rmdir /a: ok
3 0.4 mkdir /b: ok
4 0.5 flush: ok
5 0.6 tick: ok
6 0.7 mkdir /b: EEXIST file exists
7 0.8 read /info/L3_MON/max_threshold_occupancy: ok
|64
group 0 /: accesses 0 hits 0 misses 0
group 1 /a: accesses 1 hits 0 misses 1
group 2 /b: accesses 0 hits 0 misses 0
domain 0: valid 0 of 4
total: commands 8 refused 1 accesses 1 hits 0 misses 1
",
    ),
    // A cache has 256 bytes. One line is as many bytes as the threshold, and two are more.
    (
        STEP,
        "machine sets=1 ways=4 rmids=2
tasks 1
phase
thread
write /info/L3_MON/max_threshold_occupancy 257
write /info/L3_MON/max_threshold_occupancy
write /info/L3_MON/max_threshold_occupancy 0x40
write /info/L3_MON/max_threshold_occupancy 256
write /info/L3_MON/max_threshold_occupancy 18446744073709551616
read /info/L3_MON/max_threshold_occupancy
write /info/L3_MON/max_threshold_occupancy  64\t
read /info/L3_MON/max_threshold_occupancy
mkdir /a
write /a/tasks 1
access 1 0 0
rmdir /a
mkdir /mon_groups/m
rmdir /mon_groups/m
mkdir /a
write /a/tasks 1
access 1 0 64
rmdir /a
mkdir /mon_groups/m
",
        "0 0.0 write /info/L3_MON/max_threshold_occupancy 257: EINVAL threshold out of range
1 0.1 write /info/L3_MON/max_threshold_occupancy: EINVAL threshold out of range
2 0.2 write /info/L3_MON/max_threshold_occupancy 0x40: EINVAL threshold out of range
3 0.3 write /info/L3_MON/max_threshold_occupancy 256: ok
4 0.4 write /info/L3_MON/max_threshold_occupancy 18446744073709551616: EINVAL threshold out of range
5 0.5 read /info/L3_MON/max_threshold_occupancy: ok
|256
6 0.6 write /info/L3_MON/max_threshold_occupancy  64\t: ok
7 0.7 read /info/L3_MON/max_threshold_occupancy: ok
|64
8 0.8 mkdir /a: ok
9 0.9 write /a/tasks 1: ok
10 0.11 rmdir /a: ok
11 0.12 mkdir /mon_groups/m: ok
12 0.13 rmdir /mon_groups/m: ok
13 0.14 mkdir /a: ok
14 0.15 write /a/tasks 1: ok
15 0.17 rmdir /a: ok
16 0.18 mkdir /mon_groups/m: EBUSY RMIDs are in limbo
group 0 /: accesses 0 hits 0 misses 0
group 1 /a: accesses 1 hits 0 misses 1
group 3 /a: accesses 1 hits 0 misses 1
domain 0: valid 2 of 4, rmid 1 2
total: commands 17 refused 5 accesses 2 hits 0 misses 2
",
    ),
];
