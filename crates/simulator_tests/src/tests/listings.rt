//! Directories that are listed.

use crate::tests::{Row, STEP};

pub(crate) const ROWS: [Row; 2] = [
    // Groups are listed in order of creation, and a monitor group with its parent.
    (
        STEP,
        "machine domains=2 sets=1 ways=4
phase
thread
list /mon_data
list /mon_data/mon_L3_01
list /info/L3
list /info/L3_MON
mkdir /c
mkdir /b
mkdir /b/mon_groups/b
mkdir /b/mon_groups/b/mode
mkdir /mon_groups/tasks
rmdir /c
mkdir /...
mkdir /llc_occupancy
list /
list /b
list /b/mon_data
list /mon_groups
list /b/mon_groups
list /b/mon_groups/b/mon_data/mon_L3_01
",
        "0 0.0 list /mon_data: ok
|mon_L3_00
|mon_L3_01
1 0.1 list /mon_data/mon_L3_01: ok
|llc_occupancy
2 0.2 list /info/L3: ok
|bit_usage
|cbm_mask
|min_cbm_bits
|num_closids
|shareable_bits
|sparse_masks
3 0.3 list /info/L3_MON: ok
|max_threshold_occupancy
|mon_features
|num_rmids
4 0.4 mkdir /c: ok
5 0.5 mkdir /b: ok
6 0.6 mkdir /b/mon_groups/b: ok
7 0.7 mkdir /b/mon_groups/b/mode: EPERM not a place for groups
8 0.8 mkdir /mon_groups/tasks: ok
9 0.9 rmdir /c: ok
10 0.10 mkdir /...: ok
11 0.11 mkdir /llc_occupancy: ok
12 0.12 list /: ok
|cpus
|cpus_list
|info
|mode
|mon_data
|mon_groups
|schemata
|size
|tasks
|b
|...
|llc_occupancy
13 0.13 list /b: ok
|cpus
|cpus_list
|mode
|mon_data
|mon_groups
|schemata
|size
|tasks
14 0.14 list /b/mon_data: ok
|mon_L3_00
|mon_L3_01
15 0.15 list /mon_groups: ok
|tasks
16 0.16 list /b/mon_groups: ok
|b
17 0.17 list /b/mon_groups/b/mon_data/mon_L3_01: ok
|llc_occupancy
group 0 /: accesses 0 hits 0 misses 0
group 1 /c: accesses 0 hits 0 misses 0
group 2 /b: accesses 0 hits 0 misses 0
group 5 /...: accesses 0 hits 0 misses 0
group 6 /llc_occupancy: accesses 0 hits 0 misses 0
domain 0: valid 0 of 4
domain 1: valid 0 of 4
total: commands 18 refused 1 accesses 0 hits 0 misses 0
",
    ),
    // Names are told apart by their last byte, and listed whole.
    (
        STEP,
        "machine sets=1 ways=4
phase
thread
mkdir /xxxxxxxxxxxxxxxxxxxxxxxxxxxxxxxxxxxxxxxxxxxxxxxxxxxxxxxxxxxxxxxxxxxxxxxxxxxxxxxxxxxxxxxxxxxxxxxxxxxxxxxxxxxxxxxxxxxxxxxxxxxxxxxxxxxxxxxxxxxxxxxxxxxxxxxxxxxxxxxxxxxxxxxxxxxxxxxxxxxxxxxxxxxxxxxxxxxxxxxxxxxxxxxxxxxxxxxxxxxxxxxxxxxxxxxxxxxxxxxxxxxxxxxxxxxxxxx
mkdir /xxxxxxxxxxxxxxxxxxxxxxxxxxxxxxxxxxxxxxxxxxxxxxxxxxxxxxxxxxxxxxxxxxxxxxxxxxxxxxxxxxxxxxxxxxxxxxxxxxxxxxxxxxxxxxxxxxxxxxxxxxxxxxxxxxxxxxxxxxxxxxxxxxxxxxxxxxxxxxxxxxxxxxxxxxxxxxxxxxxxxxxxxxxxxxxxxxxxxxxxxxxxxxxxxxxxxxxxxxxxxxxxxxxxxxxxxxxxxxxxxxxxxxxxxxxxxxy
mkdir /fifteen_bytes_a
mkdir /fifteen_bytes_ab
mkdir /fifteen_bytes_ac
mkdir /fifteen_bytes_ab
mkdir /fifteen_bytes_a
list /
",
        "0 0.0 mkdir /xxxxxxxxxxxxxxxxxxxxxxxxxxxxxxxxxxxxxxxxxxxxxxxxxxxxxxxxxxxxxxxxxxxxxxxxxxxxxxxxxxxxxxxxxxxxxxxxxxxxxxxxxxxxxxxxxxxxxxxxxxxxxxxxxxxxxxxxxxxxxxxxxxxxxxxxxxxxxxxxxxxxxxxxxxxxxxxxxxxxxxxxxxxxxxxxxxxxxxxxxxxxxxxxxxxxxxxxxxxxxxxxxxxxxxxxxxxxxxxxxxxxxxxxxxxxxxx: ok
1 0.1 mkdir /xxxxxxxxxxxxxxxxxxxxxxxxxxxxxxxxxxxxxxxxxxxxxxxxxxxxxxxxxxxxxxxxxxxxxxxxxxxxxxxxxxxxxxxxxxxxxxxxxxxxxxxxxxxxxxxxxxxxxxxxxxxxxxxxxxxxxxxxxxxxxxxxxxxxxxxxxxxxxxxxxxxxxxxxxxxxxxxxxxxxxxxxxxxxxxxxxxxxxxxxxxxxxxxxxxxxxxxxxxxxxxxxxxxxxxxxxxxxxxxxxxxxxxxxxxxxxxy: ok
2 0.2 mkdir /fifteen_bytes_a: ok
3 0.3 mkdir /fifteen_bytes_ab: ok
4 0.4 mkdir /fifteen_bytes_ac: ok
5 0.5 mkdir /fifteen_bytes_ab: EEXIST file exists
6 0.6 mkdir /fifteen_bytes_a: EEXIST file exists
7 0.7 list /: ok
|cpus
|cpus_list
|info
|mode
|mon_data
|mon_groups
|schemata
|size
|tasks
|xxxxxxxxxxxxxxxxxxxxxxxxxxxxxxxxxxxxxxxxxxxxxxxxxxxxxxxxxxxxxxxxxxxxxxxxxxxxxxxxxxxxxxxxxxxxxxxxxxxxxxxxxxxxxxxxxxxxxxxxxxxxxxxxxxxxxxxxxxxxxxxxxxxxxxxxxxxxxxxxxxxxxxxxxxxxxxxxxxxxxxxxxxxxxxxxxxxxxxxxxxxxxxxxxxxxxxxxxxxxxxxxxxxxxxxxxxxxxxxxxxxxxxxxxxxxxxx
|xxxxxxxxxxxxxxxxxxxxxxxxxxxxxxxxxxxxxxxxxxxxxxxxxxxxxxxxxxxxxxxxxxxxxxxxxxxxxxxxxxxxxxxxxxxxxxxxxxxxxxxxxxxxxxxxxxxxxxxxxxxxxxxxxxxxxxxxxxxxxxxxxxxxxxxxxxxxxxxxxxxxxxxxxxxxxxxxxxxxxxxxxxxxxxxxxxxxxxxxxxxxxxxxxxxxxxxxxxxxxxxxxxxxxxxxxxxxxxxxxxxxxxxxxxxxxxy
|fifteen_bytes_a
|fifteen_bytes_ab
|fifteen_bytes_ac
group 0 /: accesses 0 hits 0 misses 0
group 1 /xxxxxxxxxxxxxxxxxxxxxxxxxxxxxxxxxxxxxxxxxxxxxxxxxxxxxxxxxxxxxxxxxxxxxxxxxxxxxxxxxxxxxxxxxxxxxxxxxxxxxxxxxxxxxxxxxxxxxxxxxxxxxxxxxxxxxxxxxxxxxxxxxxxxxxxxxxxxxxxxxxxxxxxxxxxxxxxxxxxxxxxxxxxxxxxxxxxxxxxxxxxxxxxxxxxxxxxxxxxxxxxxxxxxxxxxxxxxxxxxxxxxxxxxxxxxxxx: accesses 0 hits 0 misses 0
group 2 /xxxxxxxxxxxxxxxxxxxxxxxxxxxxxxxxxxxxxxxxxxxxxxxxxxxxxxxxxxxxxxxxxxxxxxxxxxxxxxxxxxxxxxxxxxxxxxxxxxxxxxxxxxxxxxxxxxxxxxxxxxxxxxxxxxxxxxxxxxxxxxxxxxxxxxxxxxxxxxxxxxxxxxxxxxxxxxxxxxxxxxxxxxxxxxxxxxxxxxxxxxxxxxxxxxxxxxxxxxxxxxxxxxxxxxxxxxxxxxxxxxxxxxxxxxxxxxy: accesses 0 hits 0 misses 0
group 3 /fifteen_bytes_a: accesses 0 hits 0 misses 0
group 4 /fifteen_bytes_ab: accesses 0 hits 0 misses 0
group 5 /fifteen_bytes_ac: accesses 0 hits 0 misses 0
domain 0: valid 0 of 4
total: commands 8 refused 2 accesses 0 hits 0 misses 0
",
    ),
];
