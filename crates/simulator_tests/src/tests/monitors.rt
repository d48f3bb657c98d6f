//! Monitor groups, and counts of lines.

use crate::tests::{Row, STEP};

pub(crate) const ROWS: [Row; 3] = [
    // Tasks and CPUs in monitor groups, what is counted there, and what a removed group leaves to its parent.
    (
        STEP,
        "machine sets=4 ways=4 cpus=4
tasks 1-3
phase
thread
mkdir /a
mkdir /a/mon_groups/x
mkdir /a/mon_groups/y
write /a/tasks 1,2
write /a/cpus 6
write /a/mon_groups/x/tasks 1
write /a/mon_groups/x/cpus 2
write /a/mon_groups/y/cpus_list 2-3
write /a/mon_groups/y/cpus_list 1-2
read /a/mon_groups/x/cpus_list
read /a/mon_groups/y/cpus
read /a/mon_groups/x/tasks
read /a/tasks
read /a/cpus
list /a/mon_groups
list /a/mon_groups/x
list /a/mon_groups/x/mon_data
access 1 0 0
access 3 1 64
access 2 0 128
read /a/mon_data/mon_L3_00/llc_occupancy
read /a/mon_groups/x/mon_data/mon_L3_00/llc_occupancy
write /info/L3_MON/max_threshold_occupancy 64
read /info/L3_MON/max_threshold_occupancy
write /info/L3_MON/max_threshold_occupancy 1025
rmdir /a/mon_groups/x
read /a/tasks
rmdir /a
list /mon_groups
read /tasks
read /cpus
",
        "0 0.0 mkdir /a: ok
1 0.1 mkdir /a/mon_groups/x: ok
2 0.2 mkdir /a/mon_groups/y: ok
3 0.3 write /a/tasks 1,2: ok
4 0.4 write /a/cpus 6: ok
5 0.5 write /a/mon_groups/x/tasks 1: ok
6 0.6 write /a/mon_groups/x/cpus 2: ok
7 0.7 write /a/mon_groups/y/cpus_list 2-3: EINVAL CPUs not in the parent group
8 0.8 write /a/mon_groups/y/cpus_list 1-2: ok
9 0.9 read /a/mon_groups/x/cpus_list: ok
|
10 0.10 read /a/mon_groups/y/cpus: ok
|6
11 0.11 read /a/mon_groups/x/tasks: ok
|1
12 0.12 read /a/tasks: ok
|1
|2
13 0.13 read /a/cpus: ok
|6
14 0.14 list /a/mon_groups: ok
|x
|y
15 0.15 list /a/mon_groups/x: ok
|cpus
|cpus_list
|mon_data
|tasks
16 0.16 list /a/mon_groups/x/mon_data: ok
|mon_L3_00
17 0.20 read /a/mon_data/mon_L3_00/llc_occupancy: ok
|192
18 0.21 read /a/mon_groups/x/mon_data/mon_L3_00/llc_occupancy: ok
|64
19 0.22 write /info/L3_MON/max_threshold_occupancy 64: ok
20 0.23 read /info/L3_MON/max_threshold_occupancy: ok
|64
21 0.24 write /info/L3_MON/max_threshold_occupancy 1025: EINVAL threshold out of range
22 0.25 rmdir /a/mon_groups/x: ok
23 0.26 read /a/tasks: ok
|1
|2
24 0.27 rmdir /a: ok
25 0.28 list /mon_groups: ok
26 0.29 read /tasks: ok
|1
|2
|3
27 0.30 read /cpus: ok
|f
group 0 /: accesses 0 hits 0 misses 0
group 1 /a: accesses 3 hits 0 misses 3
domain 0: valid 3 of 16, rmid 1 1, rmid 2 1, rmid 3 1
total: commands 28 refused 2 accesses 3 hits 0 misses 3
",
    ),
    // A monitor group of the default group, a task that leaves it, and what stands where no group may.
    (
        STEP,
        "machine sets=4 ways=4
tasks 1 2
phase
thread
mkdir /mon_groups/m
write /mon_groups/m/tasks 1
sweep 1 0 0 3 64
access 2 0 6400
access 2 0 0
read /mon_groups/m/mon_data/mon_L3_00/llc_occupancy
read /mon_data/mon_L3_00/llc_occupancy
mkdir /a
write /a/tasks 1
write /mon_groups/m/tasks 1
list /mon_groups
rmdir /mon_groups
mkdir /a/cpus
mkdir /a/x
write /a/size 1
read /a/none
",
        "0 0.0 mkdir /mon_groups/m: ok
1 0.1 write /mon_groups/m/tasks 1: ok
2 0.7 read /mon_groups/m/mon_data/mon_L3_00/llc_occupancy: ok
|192
3 0.8 read /mon_data/mon_L3_00/llc_occupancy: ok
|256
4 0.9 mkdir /a: ok
5 0.10 write /a/tasks 1: ok
6 0.11 write /mon_groups/m/tasks 1: EINVAL task 1 belongs to another control group
7 0.12 list /mon_groups: ok
|m
8 0.13 rmdir /mon_groups: EPERM not a place for groups
9 0.14 mkdir /a/cpus: EEXIST file exists
10 0.15 mkdir /a/x: EPERM not a place for groups
11 0.16 write /a/size 1: EACCES file is read-only
12 0.17 read /a/none: ENOENT no such file or directory
group 0 /: accesses 5 hits 1 misses 4
group 2 /a: accesses 0 hits 0 misses 0
domain 0: valid 4 of 16, rmid 0 1, rmid 1 3
total: commands 13 refused 6 accesses 5 hits 1 misses 4
",
    ),
    // A task and a CPU of a removed monitor group count at its parent again.
    (
        STEP,
        "machine sets=1 ways=4
tasks 7
phase
thread
mkdir /mon_groups/m
write /mon_groups/m/tasks 7
write /mon_groups/m/cpus 1
read /mon_groups/m/tasks
read /mon_groups/m/cpus
access 7 0 0
rmdir /mon_groups/m
access 7 0 64
read /tasks
read /cpus
",
        "0 0.0 mkdir /mon_groups/m: ok
1 0.1 write /mon_groups/m/tasks 7: ok
2 0.2 write /mon_groups/m/cpus 1: ok
3 0.3 read /mon_groups/m/tasks: ok
|7
4 0.4 read /mon_groups/m/cpus: ok
|1
5 0.6 rmdir /mon_groups/m: ok
6 0.8 read /tasks: ok
|7
7 0.9 read /cpus: ok
|1
group 0 /: accesses 2 hits 0 misses 2
domain 0: valid 2 of 4, rmid 0 1, rmid 1 1
total: commands 8 refused 0 accesses 2 hits 0 misses 2
",
    ),
];
