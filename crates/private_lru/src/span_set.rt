//! The exclusive spans after one opening, as the uses of lines cut them.
use crate::exclusive_span::ExclusiveSpan;
use cache_core::What;

/// The exclusive spans after a flush or a lock: up to where each group's accesses are covered is asked of these.
#[derive(Drop)]
pub(crate) struct SpanSet<'a> {
    /// The groups with the epochs of their spans, ascending by group.
    pub stays: &'a [ExclusiveSpan],
    /// For each of them, how many entries its span reaches over.
    pub reaches: &'a [usize],
    /// The number of the slice's sets.
    pub sets: u32,
    /// The flush or the lock.
    pub opening: What,
    /// The end of a group that no use cuts: the number of the entries.
    pub none: usize,
}
