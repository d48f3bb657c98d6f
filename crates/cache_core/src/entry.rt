//! What a slice's journal says of each step.

use rc_base::Gid;

/// What happened in one step of a slice.
#[derive(Clone, Copy, Debug, PartialEq, Eq)]
pub enum What {
    /// An access hit the line in this way, or filled it there for its RMID, within its owner's mask.
    Access {
        hit: bool,
        way: u8,
        owner: Gid,
        rmid: u16,
        mask: u32,
        line: u64,
    },
    /// A command changed a mask or a mode: tags that are older are stale.
    Raise,
    /// Every way was emptied.
    Flush,
    /// Every way was emptied, and the ways of the mask were loaded with the lines of a region.
    Lock {
        mask: u32,
        first_line: u64,
    },
    /// So many lines of this RMID were counted.
    Look {
        rmid: u16,
        lines: u64,
    },
    /// This line was flushed from the way that held it, or from none where no way did.
    Drop {
        line: u64,
        way: Option<u8>,
    },
}

/// One step in a slice, with the thread and the number of the op that made it. Fields lie in memory in the order in which they
/// stand; in this one an entry takes 40 bytes.
#[derive(Clone, Copy, Debug, PartialEq, Eq)]
pub struct SliceEntry {
    /// The thread, counted from 0 through the whole script.
    pub thread: u32,
    /// The number of the op in its thread, from 0.
    pub op: u32,
    /// The epoch of the access's tag, of the tree before a look's command, or of the tree after another command.
    pub epoch: u64,
    /// What happened.
    pub what: What,
}
