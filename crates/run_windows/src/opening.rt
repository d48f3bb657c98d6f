//! Where windows begin.

/// A flush or a lock: the domain, the slice in it, and the position there.
#[derive(Clone, Copy, Debug, PartialEq, Eq)]
pub(crate) struct Opening {
    /// The domain, from 0.
    pub domain: u8,
    /// The slice in its domain, from 0.
    pub slice: u8,
    /// The position, from 0.
    pub from: u32,
}
