//! Lines of ops that are none.

use crate::tests::bad_scripts::BadLines;

const THREAD: &str = "machine\ntasks 1\nphase\nthread\n";

pub(crate) const ROWS: [BadLines; 6] = [
    (
        THREAD,
        "line 5: bad argument",
        "tick 1
flush 1
flush 0 0
flush x
flush 18446744073709551616
mkdir
mkdir /a /b
rmdir
read / /
list
write
write\x20
clflush
clflush 281474976710656
clflush k
clflush 0 0
clflush k 0
clflush /k
clflush /k 0 0
clflush /k x
clflush //k x
access
access 1 0
access 1 0 0 0
access 1 1 0
access 2 1 0
access 1 0 281474976710656
access 1 0 0x1000000000000
access 1 0 0x
access 1 0 x
access 1 0 18446744073709551616
access 0x1 0 0
access 1 18446744073709551616 0
access -1 0 0
sweep 1 0 0 1
sweep 1 0 0 0 64
sweep 2 0 0 0 64
sweep 1 0 281474976710655 2 1
sweep 1 0 0 0x1 0
sweep 1 0 0 1 18446744073709551616
sweep 1 0 0 18446744073709551616 1
touch /g 0 1
touch /g 0 1 0 0
touch /g x 1 0
touch g 0 x 0
touch /g 0 1 1
touch /g 18446744073709551616 1 0",
    ),
    (
        THREAD,
        "line 5: bad path",
        "mkdir g
rmdir /g/
read /.
list //
read /a/../b
read /a/..
read /a//tasks
read /cpus/../x
write x
write x \\x
clflush //k 0
touch g 0 2 0",
    ),
    (
        THREAD,
        "line 5: bad escape",
        "write /schemata \\x
write /x/tasks a\\
write /schemata \\N
write /schemata \\\\\\",
    ),
    (
        THREAD,
        "line 5: bad byte",
        "access 1 0 0\r\r
access 1 0 0\x0b",
    ),
    (
        THREAD,
        "line 5: unknown task",
        "access 2 0 0
access 0 0 0
access 18446744073709551616 0 0
access 4294967297 0 0
sweep 2 0 0 1 0
sweep 2 0 0 18446744073709551616 0
touch /g 0 2 0
touch /g 0 0 0",
    ),
    (
        THREAD,
        "line 5: script too large",
        "sweep 1 0 0 18446744073709551616 0
sweep 1 0 0 4000001 0",
    ),
];
