//! Streams of two programs and their reports, as a plain count of lists of lines has them.

// Two lines of one program, and one of another, which has the same number as one of the first.
pub(crate) const TWO_LINES: &[u8] =
    b"turn 0\n L 0,4\n L 40,4\nturn 1\n L 0,4\nturn 0\n L 0,4\n L 40,4\nturn 1\r\n L 0,4";

// Three lines each, of two sets.
pub(crate) const THREE_LINES: &[u8] =
    b"turn 0\n L 0,4\n L 40,4\n L 80,4\nturn 1\n L 0,4\n L 80,4\n L 100,4\nturn 0\n L 0,4\n L 80,4\nturn 1\n L 0,4\n L 80,4\n L 100,4\n";

// With two ways the programs drive each other's lines out.
pub(crate) const TWO_WAYS: &[u8] = b"program web:
ways 1: accesses 4 hits 0 misses 4
ways 2: accesses 4 hits 2 misses 2
program batch:
ways 1: accesses 2 hits 1 misses 1
ways 2: accesses 2 hits 1 misses 1
shared web: misses 4
shared batch: misses 2
shared: misses 6
shared: weighted misses 6
divided web: ways 1 misses 4
divided batch: ways 1 misses 1
divided: misses 5
divided: weighted misses 5
divide: sharing is worse
";

// With three there is room for all lines.
pub(crate) const THREE_WAYS: &[u8] = b"program web:
ways 1: accesses 4 hits 0 misses 4
ways 2: accesses 4 hits 2 misses 2
ways 3: accesses 4 hits 2 misses 2
program batch:
ways 1: accesses 2 hits 1 misses 1
ways 2: accesses 2 hits 1 misses 1
ways 3: accesses 2 hits 1 misses 1
shared web: misses 2
shared batch: misses 1
shared: misses 3
shared: weighted misses 3
divided web: ways 2 misses 2
divided batch: ways 1 misses 1
divided: misses 3
divided: weighted misses 3
do not divide: sharing is no worse
";

// The second program's misses count ten times, so it gets three of four ways.
pub(crate) const WORST_RATIO: &[u8] = b"program web:
ways 1: accesses 5 hits 0 misses 5
ways 2: accesses 5 hits 2 misses 3
ways 3: accesses 5 hits 2 misses 3
ways 4: accesses 5 hits 2 misses 3
program batch:
ways 1: accesses 6 hits 0 misses 6
ways 2: accesses 6 hits 0 misses 6
ways 3: accesses 6 hits 3 misses 3
ways 4: accesses 6 hits 3 misses 3
shared web: misses 5
shared batch: misses 6
shared: misses 11
shared: worst ratio 60 of 6
divided web: ways 1 misses 5
divided batch: ways 3 misses 3
divided: misses 8
divided: worst ratio 30 of 6
divide: sharing is worse
";

// It gets two ways at least, and the first gets one.
pub(crate) const TOO_FEW_WAYS: &[u8] = b"program web:
ways 1: accesses 5 hits 0 misses 5
ways 2: accesses 5 hits 2 misses 3
program batch:
ways 1: accesses 6 hits 0 misses 6
ways 2: accesses 6 hits 0 misses 6
shared web: misses 5
shared batch: misses 6
shared: misses 11
shared: worst ratio 60 of 6
divided: the ways do not suffice
";

// Lines 0 0 1 0 of the first program, and 0 0 1 1 1 of the second, of which one use of 1 is code.
pub(crate) const SAME_LINES: &[u8] =
    b"turn 0\n L 0,4\nturn 1\n L 0,4\nturn 0\n L 0,4\n L 40,4\nturn 1\n L 0,4\n L 40,4\nturn 0\n L 0,4\nturn 1\nI  40,4\n L 40,4\n";

// In an L1 of one line the second use of 0 hits in each program, since the other has an L1 of its own, and so does the last of 1, since
// code has one too. Left are 0 1 0 of the first program and 0 1 1 of the second, in turn.
pub(crate) const BEHIND_L1: &[u8] = b"program web:
ways 1: accesses 3 hits 0 misses 3
ways 2: accesses 3 hits 1 misses 2
ways 3: accesses 3 hits 1 misses 2
program batch:
ways 1: accesses 3 hits 1 misses 2
ways 2: accesses 3 hits 1 misses 2
ways 3: accesses 3 hits 1 misses 2
shared web: misses 3
shared batch: misses 2
shared: misses 5
shared: weighted misses 5
divided web: ways 2 misses 2
divided batch: ways 1 misses 2
divided: misses 4
divided: weighted misses 4
divide: sharing is worse
";
