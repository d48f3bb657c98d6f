//! A script with lines of every kind.

use crate::tests::{Row, WITH_JOURNAL};

pub(crate) const ROWS: [Row; 1] = [
    // Blanks, numbers with leading zeros and with `0x`, escapes, a sweep, and an order that names threads that are not there.
    (
        WITH_JOURNAL,
        "# a comment
machine domains=2 cpus=4 rmids=4\r
\ttasks  9 5-7\x20
tasks 1

phase
order 3 0 0 007
 thread
mkdir /g
write /g/schemata L3:0=f;1=\\n\\\\ x\x20
write  /g/schemata
read /mon_data/mon_L3_01/llc_occupancy
thread
sweep 5 3 0x40 3 0X40
access 007 0 00
phase
phase
thread
flush
flush\t01
tick
clflush 0x40
clflush  /g 00
touch /g/mon_groups/m/x 0x10 9 1
list /cpus/x
read /tasks
read /info/L3_MON/num_rmids
rmdir /",
        "0 0.0 mkdir /g: ok
1 0.1 write /g/schemata L3:0=f;1=\\n\\\\ x : EINVAL mask is not a hexadecimal number
2 0.2 write /g/schemata: EINVAL missing ':'
3 0.3 read /mon_data/mon_L3_01/llc_occupancy: ok
|0
4 2.0 flush: ok
5 2.1 flush 1: ok
6 2.2 tick: ok
7 2.3 clflush 64: ok
8 2.4 clflush /g 0: ENOENT no such file or directory
9 2.5 touch /g/mon_groups/m/x 16 9 1: ENOENT no such file or directory
10 2.6 list /cpus/x: ENOENT no such file or directory
11 2.7 read /tasks: ok
|1
|5
|6
|7
|9
12 2.8 read /info/L3_MON/num_rmids: ok
|4
13 2.9 rmdir /: EPERM not a place for groups
slice 0.0
0 1.3 e4 access group 0 rmid 0 mask ff set 0 line 0 fill way 0
1 2.0 e5 flush
2 2.3 e8 drop line 1 none
slice 1.0
0 0.3 e3 look rmid 0 lines 0
1 1.0 e4 access group 0 rmid 0 mask ff set 1 line 1 fill way 0
2 1.1 e4 access group 0 rmid 0 mask ff set 2 line 2 fill way 0
3 1.2 e4 access group 0 rmid 0 mask ff set 3 line 3 fill way 0
4 2.0 e5 flush
5 2.1 e6 flush
6 2.3 e8 drop line 1 none
group 0 /: accesses 4 hits 0 misses 4
group 1 /g: accesses 0 hits 0 misses 0
domain 0: valid 0 of 512
domain 1: valid 0 of 512
total: commands 14 refused 6 accesses 4 hits 0 misses 4
",
    ),
];
