//! Lines that may not stand where they do.

use crate::tests::bad_scripts::BadLines;

pub(crate) const ROWS: [BadLines; 18] = [
    (
        "",
        "line 1: no machine line",
        "flush
nothing",
    ),
    (
        "\n# x\n",
        "line 3: no machine line",
        " nothing
tasks 1",
    ),
    (
        "",
        "line 1: bad byte",
        "# \x01
nothing\x7f
machine\r\r",
    ),
    ("machine\ntasks 1\n", "line 3: bad byte", "#\x7f"),
    (
        "machine\n",
        "line 2: unknown word",
        " nothing
Machine",
    ),
    (
        "machine\n",
        "line 2: out of place",
        "clflush 0
flush 9
thread
order 0",
    ),
    ("machine\n\n", "line 3: out of place", "machine sets=0"),
    (
        "machine\nphase\n",
        "line 3: out of place",
        "tasks 1
mkdir /g",
    ),
    ("machine\nphase\norder 0\n", "line 4: out of place", "tick"),
    (
        "machine\nphase\norder 0\n#\n",
        "line 5: out of place",
        "order 0",
    ),
    (
        "machine\nphase\nthread\n",
        "line 4: out of place",
        "order 0",
    ),
    (
        "machine\n",
        "line 2: bad tasks line",
        "tasks
tasks 0
tasks 4294967296
tasks 2-1
tasks 1-
tasks 1,2
tasks 0x1
tasks 1-3 3
tasks 1-4294967295 9
tasks 9000 1-4096 8000 4096",
    ),
    (
        "machine\ntasks 7\ntasks 5-6\n",
        "line 4: bad tasks line",
        "tasks 6-7",
    ),
    (
        "machine\n",
        "line 2: script too large",
        "tasks 1-4294967295",
    ),
    (
        "machine\ntasks 1-4096\n",
        "line 3: script too large",
        "tasks 4097",
    ),
    ("machine\n", "line 2: bad argument", "phase 1"),
    (
        "machine\nphase\n",
        "line 3: bad argument",
        "thread 0
order
order 0 4294967296
order 0x1",
    ),
    (
        "machine domains=2\nphase\nthread\nflush 1\n",
        "line 5: bad argument",
        "flush 2",
    ),
];
