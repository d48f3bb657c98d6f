//! Regions, and accesses to them.

use crate::tests::{Row, STEP, WITH_JOURNAL};

pub(crate) const ROWS: [Row; 3] = [
    // A region of 512 bytes is emptied.
    (
        STEP,
        "machine sets=4 ways=4
tasks 1
phase
thread
write /schemata L3:0=3
mkdir /k
write /k/mode pseudo-locksetup
write /k/schemata L3:0=c
read /k/mode
read /k/size
read /info/L3/bit_usage
touch /k 0 1 0
touch /k 448 1 0
touch /k 512 1 0
flush
touch /k 0 1 0
",
        "0 0.0 write /schemata L3:0=3: ok
1 0.1 mkdir /k: ok
2 0.2 write /k/mode pseudo-locksetup: ok
3 0.3 write /k/schemata L3:0=c: ok
4 0.4 read /k/mode: ok
|pseudo-locked
5 0.5 read /k/size: ok
|L3:0=512
6 0.6 read /info/L3/bit_usage: ok
|0=PPSS
7 0.7 touch /k 0 1 0: ok hit
8 0.8 touch /k 448 1 0: ok hit
9 0.9 touch /k 512 1 0: EINVAL offset past the region
10 0.10 flush: ok
11 0.11 touch /k 0 1 0: ok miss
group 0 /: accesses 3 hits 2 misses 1
group 1 /k: accesses 0 hits 0 misses 0
domain 0: valid 1 of 16, rmid 0 1
total: commands 12 refused 1 accesses 3 hits 2 misses 1
",
    ),
    // A group with a region shows the domain of the region alone, and a new group gets no way of it.
    (
        WITH_JOURNAL,
        "machine domains=2 sets=4 ways=4
tasks 1
phase
thread
write /schemata L3:0=3
mkdir /k
write /k/schemata L3:0=c
read /k/mode
read /k/schemata
write /k/mode pseudo-locksetup
read /k/mode
read /k/schemata
write /k/schemata L3:0=c
read /k/mode
read /k/schemata
read /k/size
read /k/cpus
read /k/cpus_list
read /info/L3/bit_usage
write /k/schemata L3:0=c
write /k/mode shareable
mkdir /b
read /b/schemata
touch /k 512 1 0
touch /b 0 1 0
touch /k 448 1 0
rmdir /k
read /info/L3/bit_usage
",
        "0 0.0 write /schemata L3:0=3: ok
1 0.1 mkdir /k: ok
2 0.2 write /k/schemata L3:0=c: ok
3 0.3 read /k/mode: ok
|shareable
4 0.4 read /k/schemata: ok
|L3:0=c;1=f
5 0.5 write /k/mode pseudo-locksetup: ok
6 0.6 read /k/mode: ok
|pseudo-locksetup
7 0.7 read /k/schemata: ok
|L3:0=c;1=f
8 0.8 write /k/schemata L3:0=c: ok
9 0.9 read /k/mode: ok
|pseudo-locked
10 0.10 read /k/schemata: ok
|L3:0=c
11 0.11 read /k/size: ok
|L3:0=512
12 0.12 read /k/cpus: ok
|1
13 0.13 read /k/cpus_list: ok
|0
14 0.14 read /info/L3/bit_usage: ok
|0=PPSS;1=SSSS
15 0.15 write /k/schemata L3:0=c: EINVAL group is pseudo-locked
16 0.16 write /k/mode shareable: EINVAL group is pseudo-locked
17 0.17 mkdir /b: ok
18 0.18 read /b/schemata: ok
|L3:0=3;1=f
19 0.19 touch /k 512 1 0: EINVAL offset past the region
20 0.20 touch /b 0 1 0: ENOENT no such file or directory
21 0.21 touch /k 448 1 0: ok hit
22 0.22 rmdir /k: ok
23 0.23 read /info/L3/bit_usage: ok
|0=00SS;1=SSSS
slice 0.0
0 0.0 e1 raise
1 0.2 e3 raise
2 0.5 e5 look rmid 1 lines 0
3 0.5 e6 raise
4 0.8 e9 lock mask c first 4503599627370496
5 0.21 e22 access group 0 rmid 0 mask 3 set 3 line 4503599627370503 hit way 3
6 0.22 e23 raise
slice 1.0
0 0.5 e5 look rmid 1 lines 0
1 0.5 e6 raise
2 0.22 e23 raise
group 0 /: accesses 1 hits 1 misses 0
group 1 /k: accesses 0 hits 0 misses 0
group 2 /b: accesses 0 hits 0 misses 0
domain 0: valid 8 of 16, rmid 0 8
domain 1: valid 0 of 16
total: commands 24 refused 4 accesses 1 hits 1 misses 0
",
    ),
    // The first line of a region is flushed, and comes back outside of it.
    (
        WITH_JOURNAL,
        "machine sets=4 ways=4
tasks 1
phase
thread
write /schemata L3:0=3
mkdir /k
write /k/mode pseudo-locksetup
write /k/schemata L3:0=c
read /k/mode
read /k/size
read /info/L3/bit_usage
touch /k 0 1 0
clflush /k 0
touch /k 0 1 0
touch /k 64 1 0
clflush /k 512
clflush / 0
",
        "0 0.0 write /schemata L3:0=3: ok
1 0.1 mkdir /k: ok
2 0.2 write /k/mode pseudo-locksetup: ok
3 0.3 write /k/schemata L3:0=c: ok
4 0.4 read /k/mode: ok
|pseudo-locked
5 0.5 read /k/size: ok
|L3:0=512
6 0.6 read /info/L3/bit_usage: ok
|0=PPSS
7 0.7 touch /k 0 1 0: ok hit
8 0.8 clflush /k 0: ok
9 0.9 touch /k 0 1 0: ok miss
10 0.10 touch /k 64 1 0: ok hit
11 0.11 clflush /k 512: EINVAL offset past the region
12 0.12 clflush / 0: ENOENT no such file or directory
slice 0.0
0 0.0 e1 raise
1 0.2 e2 look rmid 1 lines 0
2 0.2 e3 raise
3 0.3 e4 lock mask c first 4503599627370496
4 0.7 e8 access group 0 rmid 0 mask 3 set 0 line 4503599627370496 hit way 2
5 0.8 e9 drop line 4503599627370496 way 2
6 0.9 e10 access group 0 rmid 0 mask 3 set 0 line 4503599627370496 fill way 0
7 0.10 e11 access group 0 rmid 0 mask 3 set 1 line 4503599627370497 hit way 2
group 0 /: accesses 3 hits 2 misses 1
group 1 /k: accesses 0 hits 0 misses 0
domain 0: valid 8 of 16, rmid 0 8
total: commands 13 refused 2 accesses 3 hits 2 misses 1
",
    ),
];
