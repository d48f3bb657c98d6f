//! Groups that come and go.

use crate::tests::{Row, STEP};

pub(crate) const ROWS: [Row; 4] = [
    // There is one class beside that of the default group.
    (
        STEP,
        "machine sets=1 ways=4 classes=2
phase
thread
mkdir /a
mkdir /b
read /info/last_cmd_status
rmdir /a
mkdir /b
read /info/last_cmd_status
list /
mkdir /cpus
mkdir /b/x
rmdir /
",
        "0 0.0 mkdir /a: ok
1 0.1 mkdir /b: ENOSPC out of CLOSIDs
2 0.2 read /info/last_cmd_status: ok
|out of CLOSIDs
3 0.3 rmdir /a: ok
4 0.4 mkdir /b: ok
5 0.5 read /info/last_cmd_status: ok
|ok
6 0.6 list /: ok
|cpus
|cpus_list
|info
|mode
|mon_data
|mon_groups
|schemata
|size
|tasks
|b
7 0.7 mkdir /cpus: EEXIST file exists
8 0.8 mkdir /b/x: EPERM not a place for groups
9 0.9 rmdir /: EPERM not a place for groups
group 0 /: accesses 0 hits 0 misses 0
group 1 /a: accesses 0 hits 0 misses 0
group 2 /b: accesses 0 hits 0 misses 0
domain 0: valid 0 of 4
total: commands 10 refused 4 accesses 0 hits 0 misses 0
",
    ),
    (
        STEP,
        "machine rmids=1
phase
thread
mkdir /a
",
        "0 0.0 mkdir /a: ENOSPC out of RMIDs
group 0 /: accesses 0 hits 0 misses 0
domain 0: valid 0 of 512
total: commands 1 refused 1 accesses 0 hits 0 misses 0
",
    ),
    (
        STEP,
        "machine classes=1 rmids=1
phase
thread
mkdir /a
",
        "0 0.0 mkdir /a: ENOSPC out of CLOSIDs
group 0 /: accesses 0 hits 0 misses 0
domain 0: valid 0 of 512
total: commands 1 refused 1 accesses 0 hits 0 misses 0
",
    ),
    // Paths that are no groups, or are there already.
    (
        STEP,
        "machine sets=1 ways=4
phase
thread
mkdir /a
list /a
list /mon_groups
list /info
rmdir /
rmdir /a/size
rmdir /info
rmdir /b
rmdir /a/x
rmdir /size/x
rmdir /b/size
rmdir /schemata
read /info/last_cmd_status
list /size
read /
write /a 1
mkdir /b/x
mkdir /info/x
mkdir /info/x/y
mkdir /a/info
mkdir /a/tasks/x/y
mkdir /mon_data/mon_L3_0
mkdir /mon_data/mon_L3_1
mkdir /mon_data/mon_L3_01
mkdir /
mkdir /a
rmdir /a
list /a
",
        "0 0.0 mkdir /a: ok
1 0.1 list /a: ok
|cpus
|cpus_list
|mode
|mon_data
|mon_groups
|schemata
|size
|tasks
2 0.2 list /mon_groups: ok
3 0.3 list /info: ok
|L3
|L3_MON
|last_cmd_status
4 0.4 rmdir /: EPERM not a place for groups
5 0.5 rmdir /a/size: EPERM not a place for groups
6 0.6 rmdir /info: EPERM not a place for groups
7 0.7 rmdir /b: ENOENT no such file or directory
8 0.8 rmdir /a/x: ENOENT no such file or directory
9 0.9 rmdir /size/x: ENOENT no such file or directory
10 0.10 rmdir /b/size: ENOENT no such file or directory
11 0.11 rmdir /schemata: EPERM not a place for groups
12 0.12 read /info/last_cmd_status: ok
|ok
13 0.13 list /size: ENOENT no such file or directory
14 0.14 read /: ENOENT no such file or directory
15 0.15 write /a 1: ENOENT no such file or directory
16 0.16 mkdir /b/x: ENOENT no such file or directory
17 0.17 mkdir /info/x: EPERM not a place for groups
18 0.18 mkdir /info/x/y: ENOENT no such file or directory
19 0.19 mkdir /a/info: EPERM not a place for groups
20 0.20 mkdir /a/tasks/x/y: ENOENT no such file or directory
21 0.21 mkdir /mon_data/mon_L3_0: EPERM not a place for groups
22 0.22 mkdir /mon_data/mon_L3_1: EPERM not a place for groups
23 0.23 mkdir /mon_data/mon_L3_01: EPERM not a place for groups
24 0.24 mkdir /: EEXIST file exists
25 0.25 mkdir /a: EEXIST file exists
26 0.26 rmdir /a: ok
27 0.27 list /a: ENOENT no such file or directory
group 0 /: accesses 0 hits 0 misses 0
group 1 /a: accesses 0 hits 0 misses 0
domain 0: valid 0 of 4
total: commands 28 refused 22 accesses 0 hits 0 misses 0
",
    ),
];
