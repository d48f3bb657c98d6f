//! What a line says.

/// How memory is used.
#[derive(Clone, Copy, Debug, PartialEq, Eq)]
pub enum LackeyKind {
    /// `I`: an instruction is fetched.
    Code,
    /// `L`: data is loaded.
    Load,
    /// `S`: data is stored.
    Store,
    /// `M`: data is loaded and then stored.
    Modify,
}

/// What a line of a trace says.
#[derive(Clone, Copy, Debug, PartialEq, Eq)]
pub enum LackeyLine {
    /// Nothing of memory.
    Skip,
    /// So many bytes from an address on are used.
    Use {
        kind: LackeyKind,
        addr: u64,
        size: u32,
    },
}

/// The line is none of a trace: its words are no use, or the use is not in memory.
#[derive(Clone, Copy, Debug, PartialEq, Eq)]
pub struct BadLine;
