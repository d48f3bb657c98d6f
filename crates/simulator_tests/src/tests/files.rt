//! Files of the machine and of groups.

use crate::tests::{Row, STEP};

pub(crate) const ROWS: [Row; 3] = [
    // The greatest way of each cache is other hardware's too, and a mask has at least two ways.
    (
        STEP,
        "machine domains=2 sets=1 ways=12 classes=3 rmids=5 min=2 shareable=800
phase
thread
read /info/L3/num_closids
read /info/L3/cbm_mask
read /info/L3/min_cbm_bits
read /info/L3/shareable_bits
read /info/L3/sparse_masks
read /info/L3/bit_usage
read /info/L3_MON/num_rmids
read /info/L3_MON/mon_features
write /mode exclusive
read /info/last_cmd_status
write /schemata L3:0=7ff
write /mode exclusive
write /schemata L3:1=7ff
write /mode  exclusive\x20
read /info/last_cmd_status
read /mode
read /info/L3/bit_usage
write /mode exclusive
write /mode Exclusive
write /schemata L3:1=fff
mkdir /a
write /mode shareable
mkdir /a
read /a/schemata
read /a/mode
read /info/L3/bit_usage
write /info/L3/cbm_mask f
read /info/last_cmd_status
",
        "0 0.0 read /info/L3/num_closids: ok
|3
1 0.1 read /info/L3/cbm_mask: ok
|fff
2 0.2 read /info/L3/min_cbm_bits: ok
|2
3 0.3 read /info/L3/shareable_bits: ok
|800
4 0.4 read /info/L3/sparse_masks: ok
|0
5 0.5 read /info/L3/bit_usage: ok
|0=XSSSSSSSSSSS;1=XSSSSSSSSSSS
6 0.6 read /info/L3_MON/num_rmids: ok
|5
7 0.7 read /info/L3_MON/mon_features: ok
|llc_occupancy
8 0.8 write /mode exclusive: EINVAL schemata overlaps
9 0.9 read /info/last_cmd_status: ok
|schemata overlaps
10 0.10 write /schemata L3:0=7ff: ok
11 0.11 write /mode exclusive: EINVAL schemata overlaps
12 0.12 write /schemata L3:1=7ff: ok
13 0.13 write /mode  exclusive : ok
14 0.14 read /info/last_cmd_status: ok
|ok
15 0.15 read /mode: ok
|exclusive
16 0.16 read /info/L3/bit_usage: ok
|0=HEEEEEEEEEEE;1=HEEEEEEEEEEE
17 0.17 write /mode exclusive: ok
18 0.18 write /mode Exclusive: EINVAL unknown or unsupported mode
19 0.19 write /schemata L3:1=fff: EINVAL overlaps with shareable bits
20 0.20 mkdir /a: ENOSPC no space on L3:0
21 0.21 write /mode shareable: ok
22 0.22 mkdir /a: ok
23 0.23 read /a/schemata: ok
|L3:0=fff;1=fff
24 0.24 read /a/mode: ok
|shareable
25 0.25 read /info/L3/bit_usage: ok
|0=XSSSSSSSSSSS;1=XSSSSSSSSSSS
26 0.26 write /info/L3/cbm_mask f: EACCES file is read-only
27 0.27 read /info/last_cmd_status: ok
|file is read-only
group 0 /: accesses 0 hits 0 misses 0
group 1 /a: accesses 0 hits 0 misses 0
domain 0: valid 0 of 12
domain 1: valid 0 of 12
total: commands 28 refused 6 accesses 0 hits 0 misses 0
",
    ),
    (
        STEP,
        "machine sets=1 ways=8 shareable=c0
phase
thread
read /info/L3/bit_usage
write /schemata L3:0=3f
read /info/L3/bit_usage
",
        "0 0.0 read /info/L3/bit_usage: ok
|0=XXSSSSSS
1 0.1 write /schemata L3:0=3f: ok
2 0.2 read /info/L3/bit_usage: ok
|0=HHSSSSSS
group 0 /: accesses 0 hits 0 misses 0
domain 0: valid 0 of 8
total: commands 3 refused 0 accesses 0 hits 0 misses 0
",
    ),
    // Masks of 20 ways, and the greatest task.
    (
        STEP,
        "machine domains=2 sets=1 ways=20 cpus=2
tasks 3 20 4294967295
phase
thread
read /info/L3/num_closids
read /info/L3/cbm_mask
read /info/L3/min_cbm_bits
read /info/L3/shareable_bits
read /info/L3_MON/num_rmids
mkdir /b
write /b/schemata L3:0=f0;1=6
read /schemata
read /size
read /b/schemata
read /b/size
write /b/tasks 4294967295,3
read /tasks
read /b/tasks
write /b/cpus 2
read /cpus
read /cpus_list
read /b/cpus
read /b/cpus_list
",
        "0 0.0 read /info/L3/num_closids: ok
|8
1 0.1 read /info/L3/cbm_mask: ok
|fffff
2 0.2 read /info/L3/min_cbm_bits: ok
|1
3 0.3 read /info/L3/shareable_bits: ok
|0
4 0.4 read /info/L3_MON/num_rmids: ok
|16
5 0.5 mkdir /b: ok
6 0.6 write /b/schemata L3:0=f0;1=6: ok
7 0.7 read /schemata: ok
|L3:0=fffff;1=fffff
8 0.8 read /size: ok
|L3:0=1280;1=1280
9 0.9 read /b/schemata: ok
|L3:0=000f0;1=00006
10 0.10 read /b/size: ok
|L3:0=256;1=128
11 0.11 write /b/tasks 4294967295,3: ok
12 0.12 read /tasks: ok
|20
13 0.13 read /b/tasks: ok
|3
|4294967295
14 0.14 write /b/cpus 2: ok
15 0.15 read /cpus: ok
|1
16 0.16 read /cpus_list: ok
|0
17 0.17 read /b/cpus: ok
|2
18 0.18 read /b/cpus_list: ok
|1
group 0 /: accesses 0 hits 0 misses 0
group 1 /b: accesses 0 hits 0 misses 0
domain 0: valid 0 of 20
domain 1: valid 0 of 20
total: commands 19 refused 0 accesses 0 hits 0 misses 0
",
    ),
];
