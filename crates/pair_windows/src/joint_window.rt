//! What is counted of a window of a run with two levels.

use rc_base::Gid;

/// A window in which a group has its ways of an L3 domain, and of the L2 domains in it, for itself, after a flush (this project's
/// profile). All counts but `uses` are of its covered uses: those before which nobody else had used, in the window and the domain, a
/// line that the group uses in it.
#[derive(Clone, Copy, Debug, PartialEq, Eq, Drop)]
pub struct JointWindow {
    /// The L3 domain, from 0.
    pub domain: u8,
    /// The group.
    pub gid: Gid,
    /// The position, from 0, of the flush among the commands.
    pub from: u32,
    /// All uses of lines by the group in the window.
    pub uses: u64,
    /// The covered ones.
    pub covered: u64,
    /// Those of them that hit the L2.
    pub l2_hits: u64,
    /// Those of them that hit in a private L2.
    pub l2_private: u64,
    /// Those of them that missed the L2, and so were asked of the L3.
    pub l3_accesses: u64,
    /// Those of these that hit the L3.
    pub l3_hits: u64,
    /// Those that miss in a private L2 and hit in a private L3 behind it.
    pub l3_private: u64,
}
