//! Where groups may be made, whose an access is, and what a mask may not overlap. The reports were worked out by hand.

use crate::tests::Row;

// What stands below a file or below a free name is nowhere, and a file is not made again.
const BELOW_FILES: &str = "machine sets=1 ways=4
phase
thread
mkdir /a
mkdir /a/size/x
mkdir /a/x/y
mkdir /a/mon_groups/m
mkdir /a/mon_groups/m/tasks/x
mkdir /a/mon_data/mon_L3_00/llc_occupancy/x
mkdir /tasks/x
mkdir /a/size
mkdir /b/size
";

const WHAT_IS_NOWHERE: &str = "0 0.0 mkdir /a: ok
1 0.1 mkdir /a/size/x: ENOENT no such file or directory
2 0.2 mkdir /a/x/y: ENOENT no such file or directory
3 0.3 mkdir /a/mon_groups/m: ok
4 0.4 mkdir /a/mon_groups/m/tasks/x: ENOENT no such file or directory
5 0.5 mkdir /a/mon_data/mon_L3_00/llc_occupancy/x: ENOENT no such file or directory
6 0.6 mkdir /tasks/x: ENOENT no such file or directory
7 0.7 mkdir /a/size: EEXIST file exists
8 0.8 mkdir /b/size: ENOENT no such file or directory
group 0 /: accesses 0 hits 0 misses 0
group 1 /a: accesses 0 hits 0 misses 0
domain 0: valid 0 of 4
total: commands 9 refused 7 accesses 0 hits 0 misses 0
";

// Task 1 is counted in the monitor group of its own group, and task 2 in one of the default group, on whatever CPU; task 3 where
// its CPU is. The mask goes by the control group of the task, or else of the CPU.
const MONITORED: &str = "machine sets=1 ways=8 cpus=3
tasks 1-3
phase
thread
mkdir /a
mkdir /b
mkdir /mon_groups/m
mkdir /a/mon_groups/x
mkdir /b/mon_groups/y
write /a/schemata L3:0=3
write /b/schemata L3:0=c
write /a/tasks 1
write /a/mon_groups/x/tasks 1
write /mon_groups/m/tasks 2
write /b/cpus 6
write /b/mon_groups/y/cpus 4
access 1 1 0
access 2 1 64
access 3 2 128
access 3 1 192
access 2 0 256
access 3 0 320
";

const THEIR_TAGS: &str = "slice 0.0
0 0.5 e6 raise
1 0.6 e7 raise
2 0.12 e12 access group 1 rmid 4 mask 03 set 0 line 0 fill way 0
3 0.13 e12 access group 2 rmid 3 mask 0c set 0 line 1 fill way 2
4 0.14 e12 access group 2 rmid 5 mask 0c set 0 line 2 fill way 3
5 0.15 e12 access group 2 rmid 2 mask 0c set 0 line 3 fill way 2
6 0.16 e12 access group 0 rmid 3 mask ff set 0 line 4 fill way 1
7 0.17 e12 access group 0 rmid 0 mask ff set 0 line 5 fill way 4
group 0 /: accesses 2 hits 0 misses 2
group 1 /a: accesses 1 hits 0 misses 1
group 2 /b: accesses 3 hits 0 misses 3
domain 0: valid 5 of 8, rmid 0 1, rmid 2 1, rmid 3 1, rmid 4 1, rmid 5 1
total: commands 12 refused 0 accesses 6 hits 0 misses 6
";

// A group that is to be locked, beside the default group, an exclusive one, a region and the ways that other hardware uses.
const OVERLAPS: &str = "machine domains=2 sets=1 ways=8 shareable=80 cpus=2
phase
thread
write /schemata L3:0=3;1=3
mkdir /e
write /e/schemata L3:0=30;1=30
write /e/mode exclusive
mkdir /k
write /k/mode pseudo-locksetup
write /k/schemata L3:0=6
write /k/schemata L3:1=1
write /k/schemata L3:0=c0
write /k/schemata L3:0=1e
write /k/schemata L3:0=c;1=c
write /k/schemata L3:0=c
mkdir /l
read /l/schemata
write /schemata L3:0=7
write /e/schemata L3:1=3c
write /l/mode pseudo-locksetup
write /l/schemata L3:0=40
write /l/schemata L3:1=8
read /info/L3/bit_usage
";

const WHAT_THEY_MEET: &str = "0 0.0 write /schemata L3:0=3;1=3: ok
1 0.1 mkdir /e: ok
2 0.2 write /e/schemata L3:0=30;1=30: ok
3 0.3 write /e/mode exclusive: ok
4 0.4 mkdir /k: ok
5 0.5 write /k/mode pseudo-locksetup: ok
6 0.6 write /k/schemata L3:0=6: EINVAL overlaps with other group
7 0.7 write /k/schemata L3:1=1: EINVAL overlaps with other group
8 0.8 write /k/schemata L3:0=c0: EINVAL overlaps with shareable bits
9 0.9 write /k/schemata L3:0=1e: EINVAL overlaps with exclusive group
10 0.10 write /k/schemata L3:0=c;1=c: EINVAL a region has one domain
11 0.11 write /k/schemata L3:0=c: ok
12 0.12 mkdir /l: ok
13 0.13 read /l/schemata: ok
|L3:0=03;1=0f
14 0.14 write /schemata L3:0=7: EINVAL overlaps with pseudo-locked region
15 0.15 write /e/schemata L3:1=3c: EINVAL overlaps with other group
16 0.16 write /l/mode pseudo-locksetup: ok
17 0.17 write /l/schemata L3:0=40: EINVAL domain 0 has a region already
18 0.18 write /l/schemata L3:1=8: ok
19 0.19 read /info/L3/bit_usage: ok
|0=H0EEPPSS;1=H0EEP0SS
group 0 /: accesses 0 hits 0 misses 0
group 1 /e: accesses 0 hits 0 misses 0
group 2 /k: accesses 0 hits 0 misses 0
group 3 /l: accesses 0 hits 0 misses 0
domain 0: valid 2 of 8, rmid 0 2
domain 1: valid 1 of 8, rmid 0 1
total: commands 20 refused 8 accesses 0 hits 0 misses 0
";

// A mask that overlaps another group's in the second cache alone keeps a group from being exclusive, and from leaving
// pseudo-locksetup.
const SECOND_CACHES: &str = "machine domains=2 sets=1 ways=8
phase
thread
write /schemata L3:0=1;1=1
mkdir /a
write /a/schemata L3:0=6;1=6
mkdir /b
write /b/schemata L3:0=18;1=c
write /b/mode exclusive
write /b/schemata L3:1=18
write /b/mode exclusive
write /a/mode pseudo-locksetup
mkdir /c
write /c/schemata L3:0=60;1=6
write /c/mode exclusive
write /a/mode shareable
write /c/schemata L3:1=60
write /a/mode shareable
read /info/L3/bit_usage
";

const WHAT_THEY_KEEP_OUT: &str = "0 0.0 write /schemata L3:0=1;1=1: ok
1 0.1 mkdir /a: ok
2 0.2 write /a/schemata L3:0=6;1=6: ok
3 0.3 mkdir /b: ok
4 0.4 write /b/schemata L3:0=18;1=c: ok
5 0.5 write /b/mode exclusive: EINVAL schemata overlaps
6 0.6 write /b/schemata L3:1=18: ok
7 0.7 write /b/mode exclusive: ok
8 0.8 write /a/mode pseudo-locksetup: ok
9 0.9 mkdir /c: ok
10 0.10 write /c/schemata L3:0=60;1=6: ok
11 0.11 write /c/mode exclusive: ok
12 0.12 write /a/mode shareable: EINVAL overlaps with exclusive group
13 0.13 write /c/schemata L3:1=60: ok
14 0.14 write /a/mode shareable: ok
15 0.15 read /info/L3/bit_usage: ok
|0=0EEEESSS;1=0EEEESSS
group 0 /: accesses 0 hits 0 misses 0
group 1 /a: accesses 0 hits 0 misses 0
group 2 /b: accesses 0 hits 0 misses 0
group 3 /c: accesses 0 hits 0 misses 0
domain 0: valid 0 of 8
domain 1: valid 0 of 8
total: commands 16 refused 2 accesses 0 hits 0 misses 0
";

pub(crate) const ROWS: [Row; 4] = [
    (&["step"], BELOW_FILES, WHAT_IS_NOWHERE),
    (&["step", "--journal", "--quiet"], MONITORED, THEIR_TAGS),
    (&["step"], OVERLAPS, WHAT_THEY_MEET),
    (&["step"], SECOND_CACHES, WHAT_THEY_KEEP_OUT),
];
