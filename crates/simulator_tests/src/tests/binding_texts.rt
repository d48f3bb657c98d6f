//! Texts of tasks and of CPUs.

use crate::tests::{Row, STEP};

pub(crate) const ROWS: [Row; 1] = [
    // Texts that are read and printed, with blanks, the last comma and two groups of digits; and some that have no reading.
    (
        STEP,
        "machine cpus=33
tasks 7 8
phase
thread
mkdir /a
read /a/tasks
write /a/tasks 8 , 007,
read /a/tasks
write /a/tasks ,
write /a/tasks
write /tasks 7,0x8
write /tasks 7x
write /tasks ,7
write /tasks 18446744073709551616
write /tasks  8 , 7,\x20
read /tasks
read /a/cpus
write /a/cpus 1,00000000
read /a/cpus
read /a/cpus_list
read /cpus
read /cpus_list
write /a/cpus_list 3,0-1,40,33
write /a/cpus_list 2-1
read /info/last_cmd_status
",
        "0 0.0 mkdir /a: ok
1 0.1 read /a/tasks: ok
2 0.2 write /a/tasks 8 , 007,: ok
3 0.3 read /a/tasks: ok
|7
|8
4 0.4 write /a/tasks ,: EINVAL task list is not numbers
5 0.5 write /a/tasks: ok
6 0.6 write /tasks 7,0x8: EINVAL task list is not numbers
7 0.7 write /tasks 7x: EINVAL task list is not numbers
8 0.8 write /tasks ,7: EINVAL task list is not numbers
9 0.9 write /tasks 18446744073709551616: EINVAL task list is not numbers
10 0.10 write /tasks  8 , 7, : ok
11 0.11 read /tasks: ok
|7
|8
12 0.12 read /a/cpus: ok
|0,00000000
13 0.13 write /a/cpus 1,00000000: ok
14 0.14 read /a/cpus: ok
|1,00000000
15 0.15 read /a/cpus_list: ok
|32
16 0.16 read /cpus: ok
|0,ffffffff
17 0.17 read /cpus_list: ok
|0-31
18 0.18 write /a/cpus_list 3,0-1,40,33: EINVAL no CPU 33
19 0.19 write /a/cpus_list 2-1: EINVAL CPU text has no reading
20 0.20 read /info/last_cmd_status: ok
|CPU text has no reading
group 0 /: accesses 0 hits 0 misses 0
group 1 /a: accesses 0 hits 0 misses 0
domain 0: valid 0 of 512
total: commands 21 refused 7 accesses 0 hits 0 misses 0
",
    ),
];
