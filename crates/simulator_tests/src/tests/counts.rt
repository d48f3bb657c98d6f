//! Counts of lines in two caches, limbo and its threshold. The reports were worked out by hand.

use crate::tests::Row;

// The lines of one RMID are in the second cache, and those of the other in the first. A tick asks for both RMIDs in both caches.
const TWO_IN_LIMBO: &str = "machine domains=2 sets=1 ways=4 rmids=3 cpus=2
tasks 1 2
phase
thread
mkdir /a
mkdir /b
write /a/tasks 1
write /b/tasks 2
access 1 1 0
access 2 0 64
rmdir /a
rmdir /b
tick
mkdir /c
flush 1
tick
mkdir /c
mkdir /d
";

const WHEN_THEY_LEAVE: &str = "0 0.0 mkdir /a: ok
1 0.1 mkdir /b: ok
2 0.2 write /a/tasks 1: ok
3 0.3 write /b/tasks 2: ok
4 0.6 rmdir /a: ok
5 0.7 rmdir /b: ok
6 0.8 tick: ok
7 0.9 mkdir /c: EBUSY RMIDs are in limbo
8 0.10 flush 1: ok
9 0.11 tick: ok
10 0.12 mkdir /c: ok
11 0.13 mkdir /d: EBUSY RMIDs are in limbo
slice 0.0
0 0.5 e4 access group 2 rmid 2 mask f set 0 line 1 fill way 0
1 0.6 e4 look rmid 1 lines 0
2 0.6 e5 raise
3 0.7 e5 look rmid 2 lines 1
4 0.7 e6 raise
5 0.8 e6 look rmid 1 lines 0
6 0.8 e6 look rmid 2 lines 1
7 0.11 e9 look rmid 1 lines 0
8 0.11 e9 look rmid 2 lines 1
slice 1.0
0 0.4 e4 access group 1 rmid 1 mask f set 0 line 0 fill way 0
1 0.6 e4 look rmid 1 lines 1
2 0.6 e5 raise
3 0.7 e5 look rmid 2 lines 0
4 0.7 e6 raise
5 0.8 e6 look rmid 1 lines 1
6 0.8 e6 look rmid 2 lines 0
7 0.10 e9 flush
8 0.11 e9 look rmid 1 lines 0
9 0.11 e9 look rmid 2 lines 0
group 0 /: accesses 0 hits 0 misses 0
group 1 /a: accesses 1 hits 0 misses 1
group 2 /b: accesses 1 hits 0 misses 1
group 3 /c: accesses 0 hits 0 misses 0
domain 0: valid 1 of 4, rmid 2 1
domain 1: valid 0 of 4
total: commands 12 refused 2 accesses 2 hits 0 misses 2
";

// The cache has 512 bytes, and the RMID all of its lines.
const A_WHOLE_CACHE: &str = "machine sets=2 ways=4 rmids=2
tasks 1
phase
thread
write /info/L3_MON/max_threshold_occupancy 513
write /info/L3_MON/max_threshold_occupancy 512
read /info/L3_MON/max_threshold_occupancy
mkdir /a
write /a/tasks 1
sweep 1 0 0 8 64
rmdir /a
mkdir /b
write /info/L3_MON/max_threshold_occupancy 511
rmdir /b
mkdir /c
write /info/L3_MON/max_threshold_occupancy 512
tick
mkdir /c
";

const ITS_THRESHOLD: &str =
    "0 0.0 write /info/L3_MON/max_threshold_occupancy 513: EINVAL threshold out of range
1 0.1 write /info/L3_MON/max_threshold_occupancy 512: ok
2 0.2 read /info/L3_MON/max_threshold_occupancy: ok
|512
3 0.3 mkdir /a: ok
4 0.4 write /a/tasks 1: ok
5 0.13 rmdir /a: ok
6 0.14 mkdir /b: ok
7 0.15 write /info/L3_MON/max_threshold_occupancy 511: ok
8 0.16 rmdir /b: ok
9 0.17 mkdir /c: EBUSY RMIDs are in limbo
10 0.18 write /info/L3_MON/max_threshold_occupancy 512: ok
11 0.19 tick: ok
12 0.20 mkdir /c: ok
group 0 /: accesses 0 hits 0 misses 0
group 1 /a: accesses 8 hits 0 misses 8
group 2 /b: accesses 0 hits 0 misses 0
group 3 /c: accesses 0 hits 0 misses 0
domain 0: valid 8 of 8, rmid 1 8
total: commands 13 refused 2 accesses 8 hits 0 misses 8
";

// CPU 1 is of the second cache, where most of the lines are.
const TWO_CACHES: &str = "machine domains=2 sets=4 ways=4 cpus=2
tasks 1-3
phase
thread
mkdir /a
mkdir /a/mon_groups/m
write /a/tasks 1,2
write /a/mon_groups/m/tasks 2
access 1 1 0
sweep 2 1 64 2 64
access 3 1 192
access 1 0 0
read /a/mon_data/mon_L3_01/llc_occupancy
read /a/mon_data/mon_L3_00/llc_occupancy
read /a/mon_groups/m/mon_data/mon_L3_01/llc_occupancy
read /mon_data/mon_L3_01/llc_occupancy
read /mon_data/mon_L3_02/llc_occupancy
";

const THEIR_COUNTS: &str = "0 0.0 mkdir /a: ok
1 0.1 mkdir /a/mon_groups/m: ok
2 0.2 write /a/tasks 1,2: ok
3 0.3 write /a/mon_groups/m/tasks 2: ok
4 0.9 read /a/mon_data/mon_L3_01/llc_occupancy: ok
|192
5 0.10 read /a/mon_data/mon_L3_00/llc_occupancy: ok
|64
6 0.11 read /a/mon_groups/m/mon_data/mon_L3_01/llc_occupancy: ok
|128
7 0.12 read /mon_data/mon_L3_01/llc_occupancy: ok
|64
8 0.13 read /mon_data/mon_L3_02/llc_occupancy: ENOENT no such file or directory
slice 0.0
0 0.8 e4 access group 1 rmid 1 mask f set 0 line 0 fill way 0
1 0.10 e5 look rmid 1 lines 1
2 0.10 e5 look rmid 2 lines 0
slice 1.0
0 0.4 e4 access group 1 rmid 1 mask f set 0 line 0 fill way 0
1 0.5 e4 access group 1 rmid 2 mask f set 1 line 1 fill way 0
2 0.6 e4 access group 1 rmid 2 mask f set 2 line 2 fill way 0
3 0.7 e4 access group 0 rmid 0 mask f set 3 line 3 fill way 0
4 0.9 e4 look rmid 1 lines 1
5 0.9 e4 look rmid 2 lines 2
6 0.11 e6 look rmid 2 lines 2
7 0.12 e7 look rmid 0 lines 1
group 0 /: accesses 1 hits 0 misses 1
group 1 /a: accesses 4 hits 0 misses 4
domain 0: valid 1 of 16, rmid 1 1
domain 1: valid 4 of 16, rmid 0 1, rmid 1 1, rmid 2 2
total: commands 9 refused 1 accesses 5 hits 0 misses 5
";

pub(crate) const ROWS: [Row; 3] = [
    (&["step", "--journal"], TWO_IN_LIMBO, WHEN_THEY_LEAVE),
    (&["step"], A_WHOLE_CACHE, ITS_THRESHOLD),
    (&["step", "--journal"], TWO_CACHES, THEIR_COUNTS),
];
