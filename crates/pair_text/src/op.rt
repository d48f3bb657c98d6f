//! The ops of a script on groups with two masks a domain.

use crate::file::PairFile;
use script_ops::Bytes;

/// One op of such a script. All but `Use` are commands (this project's profile).
#[derive(Drop)]
pub enum PairOp {
    /// `mkdir /NAME`: makes a group.
    Mkdir {
        /// The name, without the slash.
        name: Bytes,
    },
    /// `rmdir /NAME`: removes a group.
    Rmdir {
        /// The name, without the slash.
        name: Bytes,
    },
    /// `write FILE TEXT`: writes a text to a file.
    Write {
        /// The file.
        file: PairFile,
        /// The text, with its escapes read.
        text: Bytes,
    },
    /// `read FILE`: reads a file.
    Read {
        /// The file.
        file: PairFile,
    },
    /// `flush`: empties all caches.
    Flush,
    /// A task on a CPU uses a line of memory, as code or as data.
    Use {
        /// The number of the task.
        task: u32,
        /// The number of the CPU, from 0.
        cpu: u8,
        /// The number of the line: an address, divided by 64.
        line: u64,
        /// Whether the line is used as code, and not as data.
        code: bool,
    },
}
