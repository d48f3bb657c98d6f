//! Where a text of journals stands between two of its lines.

/// What the next line of a text of journals may be.
#[derive(Clone, Copy, Debug, PartialEq, Eq)]
pub enum LinePosition {
    /// The first line.
    Start,
    /// A command that the tree took, or the line before the entries of the first slice.
    InTree,
    /// An entry of this slice, numbered over all domains, of which so many are still to come. Where none is, the line before the
    /// entries of the next slice, and after the last slice the last line.
    InSlice { slice: u8, left: u64 },
    /// None.
    Over,
}
