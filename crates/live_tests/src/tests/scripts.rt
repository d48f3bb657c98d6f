//! The script that is played by hand, and the order in which its threads take turns.

/// How often the other task goes through its lines.
pub const SWEEPS: u32 = 4;

/// How many lines it goes through each time.
pub const SWEEP: u32 = 100;

/// The first thread makes a group that has two ways for itself and one task, and reads the group's tasks. In the second phase that
/// task makes five accesses, and then reads the mask that the first thread wrote; another task goes through its lines between each
/// two of the accesses.
pub const SCRIPT: &[u8] = b"machine sets=1 ways=8
tasks 1 2
phase
thread
write /schemata L3:0=fc
mkdir /p0
write /p0/schemata L3:0=3
write /p0/mode exclusive
write /p0/tasks 1
flush
read /p0/tasks
phase
thread
access 1 0 0
access 1 0 64
access 1 0 0
access 1 0 128
access 1 0 64
read /p0/schemata
thread
sweep 2 0 64000 100 64
sweep 2 0 64000 100 64
sweep 2 0 64000 100 64
sweep 2 0 64000 100 64
";

/// The commands in the order in which they are made, by their threads and their numbers.
pub const COMMANDS: [(u32, u32); 8] = [
    (0, 0),
    (0, 1),
    (0, 2),
    (0, 3),
    (0, 4),
    (0, 5),
    (0, 6),
    (1, 5),
];

/// What each thread is shown: nothing before the first op; when the first thread has read its group's tasks and handed on, those, and
/// nothing to the others; and at the end besides, to the second, the mask that the first wrote.
pub const SHOWN: [&[u8]; 9] = [b"", b"", b"", b"1\n", b"", b"", b"1\n", b"L3:0=03\n", b""];
