//! What a thread does.

use crate::bytes::Bytes;
use path_names::PathRef;

/// One op of a thread: a file command or a memory access (this project's profile). All but `Access` are commands. Fields lie in
/// memory in the order in which they stand here; in this one an op takes 48 bytes.
#[derive(Drop)]
pub enum Op {
    /// `mkdir PATH`: makes a group.
    Mkdir {
        path: PathRef,
    },
    /// `rmdir PATH`: removes a group.
    Rmdir {
        path: PathRef,
    },
    /// `write PATH TEXT`: writes a text of at most 4,096 bytes to a file, without the newline that `echo` adds.
    Write {
        path: PathRef,
        text: Bytes,
    },
    /// `read PATH`: reads a file.
    Read {
        path: PathRef,
    },
    /// `list PATH`: lists a directory.
    List {
        path: PathRef,
    },
    /// `flush` or `flush DOMAIN`: empties the caches of every domain, or of one.
    Flush {
        domain: Option<u8>,
    },
    /// `tick`: tests the RMIDs in limbo.
    Tick,
    /// `access TASK CPU ADDR`: a task that runs on a CPU uses an address, in bytes and below 2^48.
    Access {
        task: u32,
        cpu: u8,
        addr: u64,
    },
    /// `touch PATH OFFSET TASK CPU`: a task that runs on a CPU uses a byte of a group's pseudo-locked region.
    Touch {
        cpu: u8,
        path: PathRef,
        task: u32,
        offset: u64,
    },
    /// `clflush ADDR`: flushes the line of an address, in bytes and below 2^48, from the cache of every domain.
    DropLine {
        addr: u64,
    },
    /// `clflush PATH OFFSET`: flushes the line of a byte of a group's pseudo-locked region.
    DropRegion {
        path: PathRef,
        offset: u64,
    },
}
