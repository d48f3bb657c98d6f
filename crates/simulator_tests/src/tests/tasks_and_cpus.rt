//! Tasks and CPUs that join groups.

use crate::tests::{Row, STEP, WITH_JOURNAL};

pub(crate) const ROWS: [Row; 4] = [
    // Whose an access is: of the task's group before the CPU's; and what a removed group leaves to the default group.
    (
        STEP,
        "machine sets=1 ways=8 cpus=2
tasks 1-3
phase
thread
mkdir /a
mkdir /b
write /a/tasks 1
write /b/cpus 2
access 1 1 0
access 2 1 64
access 2 0 128
read /a/tasks
read /tasks
read /b/cpus_list
read /cpus_list
rmdir /a
rmdir /b
read /tasks
read /cpus
access 1 1 0
",
        "0 0.0 mkdir /a: ok
1 0.1 mkdir /b: ok
2 0.2 write /a/tasks 1: ok
3 0.3 write /b/cpus 2: ok
4 0.7 read /a/tasks: ok
|1
5 0.8 read /tasks: ok
|2
|3
6 0.9 read /b/cpus_list: ok
|1
7 0.10 read /cpus_list: ok
|0
8 0.11 rmdir /a: ok
9 0.12 rmdir /b: ok
10 0.13 read /tasks: ok
|1
|2
|3
11 0.14 read /cpus: ok
|3
group 0 /: accesses 2 hits 1 misses 1
group 1 /a: accesses 1 hits 0 misses 1
group 2 /b: accesses 1 hits 0 misses 1
domain 0: valid 3 of 8, rmid 0 1, rmid 1 1, rmid 2 1
total: commands 12 refused 0 accesses 4 hits 1 misses 3
",
    ),
    // The tasks before a bad one move, and nothing follows in the cache.
    (
        WITH_JOURNAL,
        "machine
tasks 101 102
phase
thread
mkdir /a
write /a/tasks 101,999,102
read /info/last_cmd_status
read /a/tasks
read /tasks
write /a/tasks 0
",
        "0 0.0 mkdir /a: ok
1 0.1 write /a/tasks 101,999,102: ESRCH no task 999
2 0.2 read /info/last_cmd_status: ok
|no task 999
3 0.3 read /a/tasks: ok
|101
4 0.4 read /tasks: ok
|102
5 0.5 write /a/tasks 0: ESRCH no task 0
slice 0.0
group 0 /: accesses 0 hits 0 misses 0
group 1 /a: accesses 0 hits 0 misses 0
domain 0: valid 0 of 512
total: commands 6 refused 2 accesses 0 hits 0 misses 0
",
    ),
    (
        STEP,
        "machine cpus=4
phase
thread
mkdir /a
write /cpus 3
write /a/cpus  3\x20
read /cpus
read /a/cpus_list
write /a/cpus_list 7,4-5
write /a/cpus 10
write /a/cpus_list 1-0
write /a/cpus_list
read /a/cpus_list
read /cpus
write /a/cpus_list 0-1
write /cpus e
read /cpus
read /a/cpus
",
        "0 0.0 mkdir /a: ok
1 0.1 write /cpus 3: EINVAL cannot drop CPUs from default group
2 0.2 write /a/cpus  3 : ok
3 0.3 read /cpus: ok
|c
4 0.4 read /a/cpus_list: ok
|0-1
5 0.5 write /a/cpus_list 7,4-5: EINVAL no CPU 4
6 0.6 write /a/cpus 10: EINVAL no CPU 4
7 0.7 write /a/cpus_list 1-0: EINVAL CPU text has no reading
8 0.8 write /a/cpus_list: ok
9 0.9 read /a/cpus_list: ok
|
10 0.10 read /cpus: ok
|f
11 0.11 write /a/cpus_list 0-1: ok
12 0.12 write /cpus e: ok
13 0.13 read /cpus: ok
|e
14 0.14 read /a/cpus: ok
|1
group 0 /: accesses 0 hits 0 misses 0
group 1 /a: accesses 0 hits 0 misses 0
domain 0: valid 0 of 512
total: commands 15 refused 4 accesses 0 hits 0 misses 0
",
    ),
    (
        STEP,
        "machine sets=1 ways=4 cpus=2
tasks 1
phase
thread
mkdir /a
write /a/schemata L3:0=c
write /a/cpus 2
access 1 1 0
access 1 0 64
",
        "0 0.0 mkdir /a: ok
1 0.1 write /a/schemata L3:0=c: ok
2 0.2 write /a/cpus 2: ok
group 0 /: accesses 1 hits 0 misses 1
group 1 /a: accesses 1 hits 0 misses 1
domain 0: valid 2 of 4, rmid 0 1, rmid 1 1
total: commands 3 refused 0 accesses 2 hits 0 misses 2
",
    ),
];
