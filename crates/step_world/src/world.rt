//! The tree, the slices and the threads of a script.

use crate::slice::Slice;
use crate::thread_state::Thread;
use crate::work::Work;
use cache_core::SliceEntry;
use run_law::{LookLists, TreeEntry};
use tree_core::Tree;

/// A script that is played step by step: its tree, its slices, and where each of its threads is. Every journal has its room from
/// the start, so that no step takes memory.
#[derive(Drop)]
pub struct World {
    pub(crate) tree: Tree,
    pub(crate) commands: Vec<TreeEntry>,
    pub(crate) slices: Vec<Slice>,
    pub(crate) threads: Vec<Thread>,
    pub(crate) lists: Vec<LookLists>,
    pub(crate) phase: u32,
    pub(crate) holder: Option<u32>,
    pub(crate) work: Work,
    pub(crate) closing: Vec<Vec<SliceEntry>>,
}
